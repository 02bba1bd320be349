// A job sheet in, its answer out (document 01, "The job sheet": "reads a sheet .. and writes `refused N P`, or a result"; document 02, R-6, for its second form): bytes to bytes, and nothing is asked
// of the caller. The tables are lent, so that a program says once how large they are; what each holds afterwards is part of the contract. It relies on `sheet` for the reading, on `sheet_job`
// for the job's lines, on `positions` for what stands in them and on `result` for the text.
#![tactic(auto)]

ghost use Rattle.sheet.specs.Sheet.{tables};
ghost use Rattle.setter.specs.Answer.{lists, Answered, Fits};

/// Sets a sheet of either form. The answer is how many bytes of `out` its text has: `refused N P`, or the result. Never put into a program's `main`, whose arrays
/// would then be cleared twice.
#[inline(never)]
pub fn set_sheet(
    s: &[u8],
    set: &mut [u32; limits::SET],
    base: &mut [u32; limits::BASE_TABLE],
    ruby: &mut [u32; limits::RUBY_TABLE],
    left: &mut [u32; limits::LEFT_TABLE],
    elem: &mut [u32; limits::ELEMENT_TABLE],
    runs: &mut [u32; limits::RUNS],
    lruns: &mut [u32; limits::RUNS],
    bases: &mut [u32; limits::MOST_BASES],
    rubies: &mut [u32; limits::MOST_RUBIES],
    lefts: &mut [u32; limits::MOST_LEFTS],
    lines: &mut [u32; limits::MOST_BASES],
    out: &mut [u8; limits::ANSWER],
) -> usize
    ensures answers { Answered s.now (tables set.old base.old ruby.old left.old elem.old runs.old lruns.old) (lists bases.old rubies.old lefts.old lines.old) out.old result (tables set.new base.new ruby.new left.new elem.new runs.new lruns.new) (lists bases.new rubies.new lefts.new lines.new) out.new }
    ensures fits { Fits result out.new }
{
    match sheet::read_sheet(s, set, base, ruby, left, elem, runs, lruns) {
        Err(why) => result::write_refusal(why, out),
        Ok(n) => {
            // Slices from here on: a column is a part of a slice, and a list's length is known once a slice is made of it.
            let base: &[u32] = base;
            let ruby: &[u32] = ruby;
            let left: &[u32] = left;
            let bases: &mut [u32] = bases;
            let rubies: &mut [u32] = rubies;
            let lefts: &mut [u32] = lefts;
            let lines: &mut [u32] = lines;
            let mut rows = [cells::NO_CELL; limits::MOST_BASES];
            let mut ends = [0; limits::MOST_BASES];
            let mut extents = [0; limits::MOST_BASES];
            match sheet_job::fill_tables(
                &mut rows,
                &mut ends,
                &mut extents,
                n,
                set,
                base,
                ruby,
                left,
                elem,
                runs,
                lruns,
            ) {
                Err(why) => result::write_refusal(why, out),
                Ok(k) => {
                    let t = sheet_job::table(set, &rows);
                    let b = limits::BASE_WIDTH + n.bases;
                    let r = limits::RUBY_WIDTH + n.rubies;
                    let l = limits::LEFT_WIDTH + n.lefts;
                    positions::put_lines(
                        &t,
                        &ends[0..k],
                        &base[limits::BASE_WIDTH..b],
                        &ruby[limits::RUBY_WIDTH..r],
                        &left[limits::LEFT_WIDTH..l],
                        bases,
                        rubies,
                        lefts,
                    );
                    positions::put_ends(k, &ends, lines);
                    result::write_result(&t, k, &ends, &extents, bases, rubies, lefts, out)
                }
            }
        }
    }
}
