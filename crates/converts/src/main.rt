// Many sheets in one run: for each sheet on standard input what the converter writes of it on standard output, in the frames of the crate `frames`, by the same function as the program `convert`. It ends
// where no frame follows. Since every program ends, it takes a million sheets at most.
#![tactic(auto)]

use std::io;

fn main(rt: HostRuntime) -> io::Result<()> {
    let mut room = [0; 65536];
    let mut set = [0; limits::SET];
    let mut base = [0; limits::BASE_TABLE];
    let mut ruby = [0; limits::RUBY_TABLE];
    let mut left = [0; limits::LEFT_TABLE];
    let mut elem = [0; limits::ELEMENT_TABLE];
    let mut runs = [0; limits::RUNS];
    let mut lruns = [0; limits::RUNS];
    let mut out = [0; limits::SHEET];
    frames::answer_all(&mut rt.stdin(), &mut rt.stdout(), &mut room, |sheet, to| {
        let k = converter::convert(
            sheet, &mut set, &mut base, &mut ruby, &mut left, &mut elem, &mut runs, &mut lruns,
            &mut out,
        );
        frames::write_answer(to, k, &out)
    })
}
