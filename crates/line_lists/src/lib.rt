// A line given as a table of numbers, as a caller has it who holds no words: the elements are judged once at the door, the line is
// tried without writing, and only a line that can be set is written. It relies on line for the setting, on limits for how many
// elements a job has, on basics for lists and on refusal for number 12.
#![tactic(auto)]

ghost use Rattle.std.specs.Prelude.{◌≡◌, ◌↔◌, drop, ◌++◌, IsTrue};
ghost use Rattle.basics.specs.Seen.{was};
ghost use Rattle.line.specs.Setting.{start, run, settle};
ghost use Rattle.line_lists.specs.Promise.{rows, element_at, line, WithinAt, AllWithin, Promise};
ghost use Rattle.line_lists.specs.Passes.{Has, Ready, tried};

use line::{Element, Reading, START, place};
use refusal::Refusal;

mod within;

use within::set_within;

// How many numbers an element has, in turn: front and length of its block, its right reading (there, from, upto), its left one, and
// the depths before and after. A rest of fewer, at the table's end, is not read. Numbers and not a typed row, since `set_line` is for who
// holds a table of numbers, and says `Unsound` where an `Element` could not stand: a flag that is 2.
const ROW: usize = 10;

/// Why a line is not set.
#[derive(Clone, Copy)]
pub enum Why {
    /// 12 of the refusal list.
    Refused(Refusal),
    /// An element is not set within itself, a flag of it is not 0 or 1, it is longer than any word of a job, or there are more
    /// elements than a job may have.
    Unsound,
    /// Too long: nothing that keeps the rules fits the measure.
    Long,
}

// Element i.
fn element_at(elements: &[u32], i: usize) -> Element
    requires { Has i elements.now }
    ensures { result ≡ element_at elements.now i }
{
    let at = ROW * i;
    Element {
        front: elements[at],
        len: elements[at + 1],
        right: Reading {
            there: elements[at + 2] == 1,
            from: elements[at + 3],
            upto: elements[at + 4],
        },
        left: Reading {
            there: elements[at + 5] == 1,
            from: elements[at + 6],
            upto: elements[at + 7],
        },
        before: elements[at + 8],
        after: elements[at + 9],
    }
}

// Whether element i is set within itself. The flags are judged as they stand in its row: an Element can't tell a 2 from a 0.
fn within_at(elements: &[u32], i: usize) -> bool
    requires { Has i elements.now }
    ensures { IsTrue result ↔ WithinAt elements.now i }
{
    let e = element_at(elements, i);
    let at = ROW * i;
    set_within(elements[at + 2], elements[at + 5], e)
}

// Whether there are no more elements than a job may have, and all are set within themselves.
#[tactic(auto, using(crate::proofs::Passes::checked_steps))]
fn all_within(elements: &[u32]) -> bool
    ensures { IsTrue result ↔ AllWithin elements.now }
{
    let n = elements.len() / ROW;
    if limits::MOST_ELEMENTS < n {
        return false;
    }
    for i in 0..n {
        if !within_at(elements, i) {
            return false;
        }
    }
    true
}

// The line set without a list to write to: its extent, or that it would pass the measure. Of the positions only the last state is
// kept.
#[tactic(auto, using(crate::proofs::Passes::walked_steps))]
fn try_line(measure: u32, elements: &[u32]) -> Result<u32, Why>
    requires { AllWithin elements.now }
    ensures { result ≡ tried measure (run start (line elements.now)) }
{
    let mut st = START;
    for i in 0..elements.len() / ROW {
        st = place(st, element_at(elements, i)).st;
    }
    let extent = st.end.max(st.right.max(st.left));
    if 2 * (measure as u64) < extent as u64 {
        return Err(Why::Long);
    }
    Ok(extent)
}

// The origins of a line at the front of out.
#[tactic(auto, using(crate::proofs::Passes::written_steps))]
fn write_line(elements: &[u32], out: &mut [u32])
    requires { Ready elements.now out.old }
    ensures { out.new ≡ settle (line elements.now) ++ drop (rows elements.now) out.old }
{
    let mut st = START;
    for i in 0..elements.len() / ROW {
        let p = place(st, element_at(elements, i));
        out[i] = p.at;
        st = p.st;
    }
}

/// A line of elements, a row of ROW numbers for each, set within the measure, which is in units (document 01, "Level two"): its extent, or
/// why it is not set. Whether an element has a reading on a side is 0 or 1 in its row. The origins go to the front of out; a line that is
/// not set leaves it as it was, so the line is tried before anything is written.
#[tactic(auto, using(crate::proofs::Answers::answer_steps))]
pub fn set_line(measure: u32, elements: &[u32], out: &mut [u32]) -> Result<u32, Why>
    ensures { Promise measure elements.now out.old out.new result }
{
    if out.len() < elements.len() / ROW {
        return Err(Why::Refused(Refusal::Short));
    }
    if !all_within(elements) {
        return Err(Why::Unsound);
    }
    let extent = try_line(measure, elements)?;
    write_line(elements, out);
    Ok(extent)
}
