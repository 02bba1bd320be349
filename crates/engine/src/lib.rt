// The entry point (document 01, "The job" and "Refusal list"): a job in lists to its answer and the four result lists. Nothing is asked of the caller. The door judges the
// settings and the characters, `layout` the elements, whose rows it writes into a list of this crate's own; the filling finds the lines in it, and only then is anything
// written, so that a refusal leaves every result list as it was. It relies on `door`, `layout`, `filling` and `positions`, and on `job` for what the answer means.
#![tactic(auto)]

ghost use Rattle.std.specs.Prelude.{◌≡◌};
ghost use Rattle.basics.specs.Seen.{was};
ghost use Rattle.engine.specs.Seen.{leaves, left_in, SameLists};
ghost use Rattle.door.specs.Lent.{job_in};
ghost use Rattle.door.specs.Seen.{job_was};
ghost use Rattle.job.specs.Outcome.{outcome};
ghost use Rattle.join.specs.Rows.{table_of};
ghost use Rattle.engine.specs.Filled.{Room, Fills};

use cells::{Cell, Table};

// How many base characters a job has at most that is set by small lists.
const FEW: usize = 128;

/// Result lists of the maximum lengths.
pub const MOST: door::Lengths = door::Lengths {
    base: limits::MOST_BASES,
    ruby: limits::MOST_RUBIES,
    left: limits::MOST_LEFTS,
    lines: limits::MOST_BASES,
};

/// Where a set job is put: the positions in half units from the line's start, and the running counts of base characters at the lines' ends.
#[derive(Drop)]
pub struct Results<'a> {
    pub base: &'a mut [u32],
    pub ruby: &'a mut [u32],
    pub left: &'a mut [u32],
    pub lines: &'a mut [u32],
}

/// The job's rows, and the ends and extents of its lines, at the front of lent lists, and how many lines it has; or the first refusal of all, where the result lists have these lengths.
pub fn fill_job(
    rows: &mut [Cell],
    ends: &mut [u32],
    extents: &mut [u32],
    job: &door::Job,
    lengths: door::Lengths,
) -> Result<usize, refusal::Refusal>
    requires { Room (job_in job.now) rows.old ends.old extents.old }
    ensures { let job = job_in job.now in Fills job lengths.base lengths.ruby lengths.left lengths.lines ends.old extents.old (table_of job rows.new) ends.new extents.new result }
{
    let sizes = job.check(lengths)?;
    layout::layout(rows, job)?;
    let t = Table::new(job.ratios, job.em, rows);
    filling::fill_lines(&t, sizes.bases, ends, extents, 2 * job.measure)
}

// The job set by a table and lists of this size, for its rows and the ends and extents of its lines.
fn set_table(
    rows: &mut [Cell],
    ends: &mut [u32],
    extents: &mut [u32],
    job: &door::Job,
    results: &mut Results,
) -> job::Answer
    requires { Room (job_in job.now) rows.old ends.old extents.old }
    ensures sets { let r = results.old in leaves result results.new ≡ outcome (job_in job.now) r.base.now r.ruby.now r.left.now r.lines.now }
    ensures same { SameLists results.old results.new }
{
    let lengths = door::Lengths {
        base: results.base.len(),
        ruby: results.ruby.len(),
        left: results.left.len(),
        lines: results.lines.len(),
    };
    match fill_job(rows, ends, extents, job, lengths) {
        Err(why) => job::Answer::Refused(why),
        Ok(n) => {
            let t = Table::new(job.ratios, job.em, rows);
            positions::put_lines(
                &t,
                &ends[0..n],
                job.base.width,
                job.ruby.width,
                job.left.width,
                results.base,
                results.ruby,
                results.left,
            );
            positions::put_ends(n, ends, results.lines);
            job::Answer::Set(n)
        }
    }
}

/// Sets a job: how many lines it has, which stand in `results`; or the first refusal of all, and `results` is as it was. A small job has small lists, since a list is cleared before it
/// is used.
#[tactic(auto, unfolding(door::specs::Job::base_count))]
pub fn set(job: &door::Job, results: &mut Results) -> job::Answer
    ensures sets { let r = results.old in leaves result results.new ≡ outcome (job_in job.now) r.base.now r.ruby.now r.left.now r.lines.now }
    ensures same { SameLists results.old results.new }
{
    if job.base.count() <= FEW {
        let mut rows = [cells::NO_CELL; FEW];
        let mut ends = [0; FEW];
        let mut extents = [0; FEW];
        return set_table(&mut rows, &mut ends, &mut extents, job, results);
    }
    let mut rows = [cells::NO_CELL; limits::MOST_BASES];
    let mut ends = [0; limits::MOST_BASES];
    let mut extents = [0; limits::MOST_BASES];
    set_table(&mut rows, &mut ends, &mut extents, job, results)
}

/// The entry point over lists, as document 01 lists them: `set`, of a job whose lists are lent one by one. `ratios` are the house ratios, the ruby's first, each a, m, c; `profile` is 0, or 1 for older children; `class`, `width`, `before`, `after` and
/// `flag` are the base characters' fields, `rclass` and `rwidth` the ruby characters', `lclass` and `lwidth` the left ones'; `kind` (a letter's byte: 80 P, 77 M, 71 G, 74 J), `ebase`,
/// `eruby`, `lkind` (77 M, 71 G, 74 J, 78 none) and `eleft` the elements'; `runs` the J runs and `lruns` the left ones.
pub fn set_job(
    em: u32,
    measure: u32,
    ratios: [[u32; 3]; 2],
    profile: u32,
    class: &[u32],
    width: &[u32],
    before: &[u32],
    after: &[u32],
    flag: &[u32],
    rclass: &[u32],
    rwidth: &[u32],
    lclass: &[u32],
    lwidth: &[u32],
    kind: &[u32],
    ebase: &[u32],
    eruby: &[u32],
    lkind: &[u32],
    eleft: &[u32],
    runs: &[u32],
    lruns: &[u32],
    base: &mut [u32],
    ruby: &mut [u32],
    left: &mut [u32],
    lines: &mut [u32],
) -> job::Answer
    ensures { let job = job_was em measure ratios profile class width before after flag rclass rwidth lclass lwidth kind ebase eruby lkind eleft runs lruns in left_in result base.new ruby.new left.new lines.new ≡ outcome job base.old ruby.old left.old lines.old }
{
    let job = door::Job {
        em,
        measure,
        ratios,
        profile,
        base: door::Bases {
            class,
            width,
            before,
            after,
            flag,
        },
        ruby: door::Readings {
            class: rclass,
            width: rwidth,
        },
        left: door::Readings {
            class: lclass,
            width: lwidth,
        },
        elements: door::Elements {
            kind,
            bases: ebase,
            rubies: eruby,
            left_kind: lkind,
            lefts: eleft,
        },
        runs,
        left_runs: lruns,
    };
    set(
        &job,
        &mut Results {
            base,
            ruby,
            left,
            lines,
        },
    )
}
