// The account program: a sheet on standard input, its account on standard output: the verdict of the page, and why each gap is as wide as it is. What is read of a sheet that is too long is
// enough to tell that it is. The tables are `[0; n]` arrays, lent to the library; everything else is `account_sheet::account_sheet`.
#![tactic(auto)]

use std::io;
use std::io::Write;

fn main(rt: HostRuntime) -> io::Result<()> {
    let mut text = [0u8; 65536];
    let n = frames::fill(&mut rt.stdin(), &mut text)?;
    let mut set = [0; limits::SET];
    let mut base = [0; limits::BASE_TABLE];
    let mut ruby = [0; limits::RUBY_TABLE];
    let mut left = [0; limits::LEFT_TABLE];
    let mut elem = [0; limits::ELEMENT_TABLE];
    let mut runs = [0; limits::RUNS];
    let mut lruns = [0; limits::RUNS];
    let mut rows = [0; limits::ACCOUNT];
    let mut told = [0; limits::MOST_BASES];
    let mut extents = [0; limits::MOST_BASES];
    let mut out = [0; limits::ANSWER];
    let k = account_sheet::account_sheet(
        &text[..n],
        &mut set,
        &mut base,
        &mut ruby,
        &mut left,
        &mut elem,
        &mut runs,
        &mut lruns,
        &mut rows,
        &mut told,
        &mut extents,
        &mut out,
    );
    rt.stdout().write_all(&out[..k])
}
