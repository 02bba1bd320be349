// The setting program (document 01, "The job sheet"): a sheet on standard input, its answer on standard output. What is read of a sheet that is too long is enough to tell that it is. The
// tables are `[0; n]` arrays, lent to the library; everything else is `setter::set_sheet`.
#![tactic(auto)]

use std::io;
use std::io::Write;

fn main(rt: HostRuntime) -> io::Result<()> {
    let mut text = [0u8; 65536];
    let n = frames::fill(&mut rt.stdin(), &mut text)?;
    let mut set = [0; limits::SET];
    let mut base = [0; limits::BASE_TABLE];
    let mut ruby = [0; limits::RUBY_TABLE];
    let mut left = [0; limits::LEFT_TABLE];
    let mut elem = [0; limits::ELEMENT_TABLE];
    let mut runs = [0; limits::RUNS];
    let mut lruns = [0; limits::RUNS];
    let mut bases = [0; limits::MOST_BASES];
    let mut rubies = [0; limits::MOST_RUBIES];
    let mut lefts = [0; limits::MOST_LEFTS];
    let mut lines = [0; limits::MOST_BASES];
    let mut out = [0; limits::ANSWER];
    let k = setter::set_sheet(
        &text[..n],
        &mut set,
        &mut base,
        &mut ruby,
        &mut left,
        &mut elem,
        &mut runs,
        &mut lruns,
        &mut bases,
        &mut rubies,
        &mut lefts,
        &mut lines,
        &mut out,
    );
    rt.stdout().write_all(&out[..k])
}
