// The job of a sheet: from the tables of a sound reading to the rows of its own table and its lines, or the first refusal of all. Setting, account and conversion of a sheet begin with it, so the
// tables are taken apart here and nowhere else. Its result lists have the maximum lengths, as a sheet's always have. It relies on `sheet` for the tables and on `engine` for the rest.
#![tactic(auto)]

ghost use Rattle.std.specs.Prelude.{◌≡◌, ◌≤◌, length, get_or};
ghost use Rattle.sheet.specs.Seen.{tables_now, tables_was};
ghost use Rattle.door.specs.Lent.{job_in};
ghost use Rattle.engine.specs.Filled.{Fills};
ghost use Rattle.sheet_job.specs.Tables.{TablesLong, tables_job, Whole};
ghost use Rattle.sheet.specs.Sheet.{ratios_in};
ghost use Rattle.spread.specs.Ratio.{ratios_of};
ghost use Rattle.join.specs.Rows.{table_of};

use cells::{Cell, Table};

/// The job that the tables hold, column by column (`sheet::read_sheet`).
fn job_at<'a>(
    n: sheet::Counts,
    set: &[u32],
    base: &'a [u32],
    ruby: &'a [u32],
    left: &'a [u32],
    elem: &'a [u32],
    runs: &'a [u32],
    lruns: &'a [u32],
) -> door::Job<'a>
    requires { TablesLong n (tables_now set base ruby left elem runs lruns) }
    ensures { job_in result ≡ tables_job n (tables_was set base ruby left elem runs lruns) }
{
    let b = n.bases;
    let r = n.rubies;
    let l = n.lefts;
    let e = n.elements;
    door::Job {
        em: set[0],
        measure: set[1],
        ratios: [[set[2], set[3], set[4]], [set[5], set[6], set[7]]],
        profile: set[8],
        base: door::Bases {
            class: &base[0..b],
            width: &base[limits::BASE_WIDTH..limits::BASE_WIDTH + b],
            before: &base[limits::BASE_BEFORE..limits::BASE_BEFORE + b],
            after: &base[limits::BASE_AFTER..limits::BASE_AFTER + b],
            flag: &base[limits::BASE_FLAG..limits::BASE_FLAG + b],
        },
        ruby: door::Readings {
            class: &ruby[0..r],
            width: &ruby[limits::RUBY_WIDTH..limits::RUBY_WIDTH + r],
        },
        left: door::Readings {
            class: &left[0..l],
            width: &left[limits::LEFT_WIDTH..limits::LEFT_WIDTH + l],
        },
        elements: door::Elements {
            kind: &elem[0..e],
            bases: &elem[limits::ELEMENT_BASE..limits::ELEMENT_BASE + e],
            rubies: &elem[limits::ELEMENT_RUBY..limits::ELEMENT_RUBY + e],
            left_kind: &elem[limits::ELEMENT_LEFT_KIND..limits::ELEMENT_LEFT_KIND + e],
            lefts: &elem[limits::ELEMENT_LEFT..limits::ELEMENT_LEFT + e],
        },
        runs: &runs[0..n.runs],
        left_runs: &lruns[0..n.lruns],
    }
}

/// That job's rows, and the ends and extents of its lines; or the first refusal of all.
pub fn fill_tables(
    rows: &mut [Cell; limits::MOST_BASES],
    ends: &mut [u32; limits::MOST_BASES],
    extents: &mut [u32; limits::MOST_BASES],
    n: sheet::Counts,
    set: &[u32],
    base: &[u32],
    ruby: &[u32],
    left: &[u32],
    elem: &[u32],
    runs: &[u32],
    lruns: &[u32],
) -> Result<usize, refusal::Refusal>
    requires { TablesLong n (tables_now set base ruby left elem runs lruns) }
    ensures fact { let job = tables_job n (tables_was set base ruby left elem runs lruns) in Fills job 1024 2048 2048 1024 ends.old extents.old (table_of job rows.new) ends.new extents.new result }
    ensures whole { Whole rows.new ends.new extents.new }
{
    let job = job_at(n, set, base, ruby, left, elem, runs, lruns);
    engine::fill_job(rows, ends, extents, &job, engine::MOST)
}

/// The rows as the table of the job whose settings these are.
pub fn table<'a>(set: &[u32], rows: &'a [Cell]) -> Table<'a>
    requires { 9 ≤ length set.now }
    ensures { result ≡ record { ratios = ratios_of (ratios_in set.now); em = get_or set.now 0 0; rows = rows.now } }
{
    Table::new(
        [[set[2], set[3], set[4]], [set[5], set[6], set[7]]],
        set[0],
        rows,
    )
}
