// The converter of R-6: a sheet of one form in, the same sheet of the other form out, or `refused N P`; bytes to bytes, and nothing is asked of the caller. The tables are lent, so that a program says
// once how large they are; what each holds afterwards is part of the contract. It relies on `sheet` for the reading, on `other_form` for the other sheet and the line that form one can't hold, on
// `sheet_job` for the job's own refusal, and on `result` for the text of a refusal.
#![tactic(auto)]

ghost use Rattle.std.specs.Prelude.{◌≡◌};
ghost use Rattle.sheet.specs.Sheet.{tables};
ghost use Rattle.sheet.specs.Seen.{tables_now, tables_was};
ghost use Rattle.setter.specs.Answer.{Fits};
ghost use Rattle.job.specs.Refusals.{fault};
ghost use Rattle.sheet_job.specs.Tables.{TablesLong, tables_job};
ghost use Rattle.other_form.specs.Ready.{FaultReady};
ghost use Rattle.other_form.specs.Fault.{line_by};
ghost use Rattle.converter.specs.Convert.{verdict, Converted};

// A sound sheet's tables: "17 .. after 13", and then the refusal of its job.
fn judge(
    n: sheet::Counts,
    set: &[u32],
    base: &[u32],
    ruby: &[u32],
    left: &[u32],
    elem: &[u32],
    runs: &[u32],
    lruns: &[u32],
) -> Result<(), refusal::Refusal>
    requires { FaultReady n set.now elem.now × TablesLong n (tables_now set base ruby left elem runs lruns) }
    ensures { let job = tables_job n (tables_was set base ruby left elem runs lruns) in result ≡ verdict (line_by n set.now elem.now) (fault job 1024 2048 2048 1024) }
{
    if let Some(line) = other_form::fault_line(n, set, elem) {
        return Err(refusal::Refusal::OtherForm(line));
    }
    let mut rows = [cells::NO_CELL; limits::MOST_BASES];
    let mut ends = [0; limits::MOST_BASES];
    let mut extents = [0; limits::MOST_BASES];
    sheet_job::fill_tables(
        &mut rows,
        &mut ends,
        &mut extents,
        n,
        set,
        base,
        ruby,
        left,
        elem,
        runs,
        lruns,
    )?;
    Ok(())
}

/// Converts a sheet. The answer is how many bytes of `out` are written: the other sheet, or `refused N P`. Never put into a program's `main`, whose arrays
/// would then be cleared twice.
#[inline(never)]
pub fn convert(
    s: &[u8],
    set: &mut [u32; limits::SET],
    base: &mut [u32; limits::BASE_TABLE],
    ruby: &mut [u32; limits::RUBY_TABLE],
    left: &mut [u32; limits::LEFT_TABLE],
    elem: &mut [u32; limits::ELEMENT_TABLE],
    runs: &mut [u32; limits::RUNS],
    lruns: &mut [u32; limits::RUNS],
    out: &mut [u8; limits::SHEET],
) -> usize
    ensures converted { Converted s.now (tables set.old base.old ruby.old left.old elem.old runs.old lruns.old) out.old result (tables set.new base.new ruby.new left.new elem.new runs.new lruns.new) out.new }
    ensures fits { Fits result out.new }
{
    match sheet::read_sheet(s, set, base, ruby, left, elem, runs, lruns) {
        Err(why) => result::write_refusal(why, out),
        Ok(n) => match judge(n, set, base, ruby, left, elem, runs, lruns) {
            Err(why) => result::write_refusal(why, out),
            Ok(()) => other_form::write_other(s, n, out),
        },
    }
}
