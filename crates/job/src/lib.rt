// The whole job (document 01): the lines that its elements fill, where every character stands, and the answer. specs/Line.antt has the line from one
// base character up to another, specs/Refusals.antt the order of all refusals, specs/Outcome.antt the answer and the result lists, and proofs/Demands.antt
// what is proved of them. It relies on `door` for the job and its own faults, on `word` for level one, on `line` for level two, and on
// `class` for the depths on a P.
#![tactic(auto)]

/// The number of lines, or the first refusal of the list. An enum of its own and no `Result`: a refusal is an answer of the entry point, as the documents have it.
#[derive(Clone, Copy)]
pub enum Answer {
    Set(usize),
    Refused(refusal::Refusal),
}
