// The converter program (document 02, R-6): a sheet on standard input, the sheet in the other form on standard output, or `refused N P`. What is read of a sheet that is too long is enough to tell that
// it is. The tables are `[0; n]` arrays, lent to the library; everything else is `converter::convert`.
#![tactic(auto)]

use std::io;
use std::io::Write;

fn main(rt: HostRuntime) -> io::Result<()> {
    let mut text = [0u8; 65536];
    let n = frames::fill(&mut rt.stdin(), &mut text)?;
    let mut set = [0; limits::SET];
    let mut base = [0; limits::BASE_TABLE];
    let mut ruby = [0; limits::RUBY_TABLE];
    let mut left = [0; limits::LEFT_TABLE];
    let mut elem = [0; limits::ELEMENT_TABLE];
    let mut runs = [0; limits::RUNS];
    let mut lruns = [0; limits::RUNS];
    let mut out = [0; limits::SHEET];
    let k = converter::convert(
        &text[..n],
        &mut set,
        &mut base,
        &mut ruby,
        &mut left,
        &mut elem,
        &mut runs,
        &mut lruns,
        &mut out,
    );
    rt.stdout().write_all(&out[..k])
}
