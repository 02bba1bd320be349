// A job sheet of either form in, its account out: bytes to bytes, and nothing is asked of the caller. A page that can be set is told line by line, with the reason for each gap; one that can't is
// refused as the setting refuses it, and where a line is too long the account says how far. It relies on `sheet` for the reading, on `sheet_job` for the job's table and lines, on `job_account` for
// the account, on `shortest` for what a declined line needs, and on `account_text` for the text.
#![tactic(auto)]

ghost use Rattle.std.specs.Prelude.{◌≤◌, length};
ghost use Rattle.sheet.specs.Sheet.{tables};
ghost use Rattle.text.specs.Print.{Wrote};
ghost use Rattle.refusal.specs.Refusal.{place_of};
ghost use Rattle.setter.specs.Answer.{Fits};
ghost use Rattle.shortest.specs.Shortest.{needed_of};
ghost use Rattle.job_account.specs.Walk.{LinesReady};
ghost use Rattle.account_sheet.specs.Answer.{lists, Answered, refused_text};
ghost use Rattle.account_sheet.specs.Needs.{Declined};
ghost use Rattle.account_sheet.specs.Tell.{Listed, clear_text, ClearReady};

// A refusal by its number and place; of a line that is too long also the extent that it needs, by the n rows of the job's table, and the measure.
fn write_declined(
    why: refusal::Refusal,
    t: &cells::Table,
    n: usize,
    measure: u32,
    out: &mut [u8],
) -> usize
    requires { Declined t.now n measure why out.old }
    ensures { Wrote out.old 0 (refused_text why (needed_of t.now n (place_of why)) measure) result out.new }
{
    let at = result::write_refusal(why, out);
    if why.number() != 11 {
        return at;
    }
    let needed = shortest::needed_extent(t, n, why.place() as usize);
    account_text::put_needs(out, at, needed, measure)
}

// The account's lists of n lines, which end where the front of `ends` says and have the extents at the front of `found`.
fn put_lists(
    t: &cells::Table,
    n: usize,
    ends: &[u32; limits::MOST_BASES],
    found: &[u32; limits::MOST_BASES],
    rows: &mut [u32],
    told: &mut [u32],
    extents: &mut [u32],
)
    requires lines_ready { LinesReady t.now n ends.now rows.old told.old }
    requires n_bound { (n ≤ 1024) × (n ≤ length found.now) × (n ≤ length extents.old) }
    ensures { Listed t.now n ends.now found.now (lists rows.old told.old extents.old) (lists rows.new told.new extents.new) }
{
    job_account::tell_lines(t, n, ends, rows, told);
    job_account::put_extents(n, found, extents);
}

// The account of a page of n lines that is clear, from its lists and the table of its elements.
fn write_clear(
    n: usize,
    elements: usize,
    elem: &[u32],
    rows: &[u32],
    told: &[u32],
    extents: &[u32],
    out: &mut [u8],
) -> usize
    requires { ClearReady n elements elem.now rows.now told.now extents.now out.old }
    ensures { Wrote out.old 0 (clear_text n elements elem.now rows.now told.now extents.now) result out.new }
{
    let end = limits::ELEMENT_LEFT_KIND + elements;
    let readings = account_text::count_readings(
        elements,
        &elem[0..elements],
        &elem[limits::ELEMENT_LEFT_KIND..end],
    );
    account_text::write_account(n, elements, readings, rows, told, extents, out)
}

/// The account of a sheet. The answer is how many bytes of `out` its text has. Never put into a program's `main`, whose arrays
/// would then be cleared twice.
#[inline(never)]
pub fn account_sheet(
    s: &[u8],
    set: &mut [u32; limits::SET],
    base: &mut [u32; limits::BASE_TABLE],
    ruby: &mut [u32; limits::RUBY_TABLE],
    left: &mut [u32; limits::LEFT_TABLE],
    elem: &mut [u32; limits::ELEMENT_TABLE],
    runs: &mut [u32; limits::RUNS],
    lruns: &mut [u32; limits::RUNS],
    rows: &mut [u32; limits::ACCOUNT],
    told: &mut [u32; limits::MOST_BASES],
    extents: &mut [u32; limits::MOST_BASES],
    out: &mut [u8; limits::ANSWER],
) -> usize
    ensures answers { Answered s.now (tables set.old base.old ruby.old left.old elem.old runs.old lruns.old) (lists rows.old told.old extents.old) out.old result (tables set.new base.new ruby.new left.new elem.new runs.new lruns.new) (lists rows.new told.new extents.new) out.new }
    ensures fits { Fits result out.new }
{
    match sheet::read_sheet(s, set, base, ruby, left, elem, runs, lruns) {
        Err(why) => result::write_refusal(why, out),
        Ok(n) => {
            // Slices from here on: a list's length is known once a slice is made of it.
            let rows: &mut [u32] = rows;
            let told: &mut [u32] = told;
            let extents: &mut [u32] = extents;
            let mut list = [cells::NO_CELL; limits::MOST_BASES];
            let mut ends = [0; limits::MOST_BASES];
            let mut found = [0; limits::MOST_BASES];
            match sheet_job::fill_tables(
                &mut list, &mut ends, &mut found, n, set, base, ruby, left, elem, runs, lruns,
            ) {
                Err(why) => {
                    let t = sheet_job::table(set, &list);
                    write_declined(why, &t, n.bases, set[1], out)
                }
                Ok(k) => {
                    let t = sheet_job::table(set, &list);
                    put_lists(&t, k, &ends, &found, rows, told, extents);
                    write_clear(k, n.elements, elem, rows, told, extents, out)
                }
            }
        }
    }
}
