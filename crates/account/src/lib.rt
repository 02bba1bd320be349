// Why each gap of a line is as wide as it is. An element stands no nearer the line's start because some rule of clearance (document
// 01, level two) already holds with equality; the account of an element names the gap before its block, that rule, the other element
// and the permitted depth (specs/Reasons.antt). proofs/Theorems.antt has what is proved of it: the named rule would be broken one half
// unit nearer, and in a line that is set every element has such a reason. With readings on both sides (R-5 of document 02) a reason names
// the side of the ruby that it speaks of. It relies on line for the elements, the rules and the setting.
#![tactic(auto)]

ghost use Rattle.std.specs.Prelude.{◌≡◌, ◌-◌, ◌≤◌};
ghost use Rattle.line.specs.Rules.{block_of};
ghost use Rattle.account.specs.Reasons.{drawn, touches, under, over, starts, beside};
ghost use Rattle.account.specs.Claims.{on_side, number, depth};
ghost use Rattle.account.specs.Step.{touching, ruby_after, reason_after, account_after, end_before, further, passed};

use line::{Element, Reading, Side};

/// What holds an element where it stands. The other element is named by its number in the line.
#[derive(Clone, Copy, Debug, PartialEq, Eq)]
pub enum Reason {
    /// Its block stands at the line's start.
    Start,
    /// Its block touches the block before (rule 1).
    Block(u32),
    /// A ruby of the element before keeps off its block but for the depth (rule 2).
    Under(Side, u32, u32),
    /// Its own ruby keeps off the block before but for the depth (rule 2).
    Over(Side, u32, u32),
    /// Its ruby touches an earlier ruby of its side (rule 3).
    Ruby(Side, u32),
    /// Its own ruby stands at the line's start (rule 4).
    Edge(Side),
    /// Nothing does: it could stand nearer. No element of a line that is set is free.
    Free,
}

/// The gap before an element's block, from the end of the block before or from the line's start, and what holds the element there.
#[derive(Clone, Copy, Debug, PartialEq, Eq)]
pub struct Account {
    pub gap: u64,
    pub reason: Reason,
}

/// A ruby that reaches further than all of its side so far: the number of its element, and where it ends.
#[derive(Clone, Copy, Debug, PartialEq, Eq)]
pub struct Far {
    pub whose: u32,
    pub end: u64,
}

/// What stands before an element: the element just before it with its origin, and on each side the ruby that reaches furthest, if there is one.
#[derive(Clone, Copy)]
pub struct Before {
    pub last: Element,
    pub at: u32,
    pub right: Option<Far>,
    pub left: Option<Far>,
}

/// At the line's start nothing stands yet. The element's number, 0, says that `last` is none.
pub const START: Before = Before {
    last: Element {
        front: 0,
        len: 0,
        right: line::NO_READING,
        left: line::NO_READING,
        before: 0,
        after: 0,
    },
    at: 0,
    right: None,
    left: None,
};

/// The start of the block of e at x.
pub fn block_start(e: Element, x: u32) -> u64
    ensures { (result ≡ (block_of e x).start) × (result ≤ 8589934590) }
{
    x as u64 + e.front as u64
}

// Its end.
fn block_end(e: Element, x: u32) -> u64
    ensures { result ≡ (block_of e x).end }
{
    x as u64 + e.front as u64 + e.len as u64
}

// Start and end of the reading r of an element at x.
fn ruby_start(r: Reading, x: u32) -> u64
    ensures { (result ≡ (drawn r x).start) × (result ≤ 8589934590) }
{
    x as u64 + r.from as u64
}

fn ruby_end(r: Reading, x: u32) -> u64
    ensures { result ≡ (drawn r x).end }
{
    x as u64 + r.upto as u64
}

// Rule 1 between p at y and e at x just after it.
fn block_touches(p: Element, y: u32, e: Element, x: u32) -> bool
    ensures { result ≡ touches p y e x }
{
    block_end(p, y) == block_start(e, x)
}

// Rule 2: the reading r of the element before, which is at y, lies on e's block as deep as it may.
fn lies_under(r: Reading, y: u32, e: Element, x: u32) -> bool
    ensures { result ≡ under r y e x }
{
    r.there && ruby_end(r, y) == block_start(e, x) + e.before as u64
}

// Rule 2: the reading r of an element at x lies on p's block just before it as deep as it may.
fn lies_over(p: Element, y: u32, r: Reading, x: u32) -> bool
    ensures { result ≡ over p y r x }
{
    r.there && block_end(p, y) == ruby_start(r, x) + p.after as u64
}

// Rule 4: the reading r of an element at x stands at the line's start.
fn at_edge(r: Reading, x: u32) -> bool
    ensures { result ≡ starts r x }
{
    r.there && ruby_start(r, x) == 0
}

// Rule 3: the reading r of an element at x touches the ruby of its side that reaches furthest; whose that is.
fn touching(far: Option<Far>, r: Reading, x: u32) -> Option<u32>
    ensures { result ≡ touching far r x }
{
    match far {
        Some(f) if r.there && f.end == ruby_start(r, x) => Some(f.whose),
        _ => None,
    }
}

// Rules 3 and 4.
#[tactic(auto, using(crate::proofs::Steps::ruby_steps))]
fn by_ruby(b: Before, e: Element, x: u32) -> Reason
    ensures { result ≡ ruby_after b e x }
{
    if let Some(k) = touching(b.right, e.right, x) {
        return Reason::Ruby(Side::Right, k);
    }
    if let Some(k) = touching(b.left, e.left, x) {
        return Reason::Ruby(Side::Left, k);
    }
    if at_edge(e.right, x) {
        return Reason::Edge(Side::Right);
    }
    if at_edge(e.left, x) {
        return Reason::Edge(Side::Left);
    }
    Reason::Free
}

// Rules 1 and 2 with the element just before, number j, or else rules 3 and 4.
#[tactic(auto, unfolding(crate::specs::Reasons::beside))]
fn by_neighbour(j: u32, b: Before, e: Element, x: u32) -> Reason
    ensures { result ≡ beside j b.last b.at e x (ruby_after b e x) }
{
    let p = b.last;
    let y = b.at;
    if block_touches(p, y, e, x) {
        return Reason::Block(j);
    }
    if lies_under(p.right, y, e, x) {
        return Reason::Under(Side::Right, j, e.before);
    }
    if lies_under(p.left, y, e, x) {
        return Reason::Under(Side::Left, j, e.before);
    }
    if lies_over(p, y, e.right, x) {
        return Reason::Over(Side::Right, j, p.after);
    }
    if lies_over(p, y, e.left, x) {
        return Reason::Over(Side::Left, j, p.after);
    }
    by_ruby(b, e, x)
}

// What holds e, element i of its line, at x: the first of the reasons in the rules' order.
#[tactic(auto, using(crate::proofs::Steps::reason_steps), unfolding(crate::specs::Step::reason_after))]
fn reason_of(i: u32, b: Before, e: Element, x: u32) -> Reason
    ensures { result ≡ reason_after i b e x }
{
    if block_start(e, x) == 0 {
        return Reason::Start;
    }
    if i == 0 {
        return by_ruby(b, e, x);
    }
    by_neighbour(i - 1, b, e, x)
}

// The end of the block before, or the line's start.
fn end_before(i: u32, b: Before) -> u64
    ensures { result ≡ end_before i b }
{
    if i == 0 { 0 } else { block_end(b.last, b.at) }
}

/// The account of e, element i of its line, which stands at x behind what b says.
pub fn account_of(i: u32, b: Before, e: Element, x: u32) -> Account
    ensures { result ≡ account_after i b e x }
{
    Account {
        gap: block_start(e, x).saturating_sub(end_before(i, b)),
        reason: reason_of(i, b, e, x),
    }
}

// The ruby of a side that reaches furthest once element i, with the reading r there, stands at x; of two that end at one place the nearer.
fn furthest(i: u32, far: Option<Far>, r: Reading, x: u32) -> Option<Far>
    ensures { result ≡ further i far r x }
{
    if !r.there {
        return far;
    }
    let end = ruby_end(r, x);
    match far {
        Some(f) if end < f.end => far,
        _ => Some(Far { whose: i, end }),
    }
}

/// What stands once e, element i, is at x.
pub fn pass(i: u32, b: Before, e: Element, x: u32) -> Before
    ensures { result ≡ passed i b e x }
{
    Before {
        last: e,
        at: x,
        right: furthest(i, b.right, e.right, x),
        left: furthest(i, b.left, e.left, x),
    }
}

impl Reason {
    /// The reason as a number: 1 to 10, where 3 to 6 tell one of the right side and 4 more the same of the left; 11 where there is none.
    pub fn number(self) -> u32
        ensures { result ≡ number self }
    {
        match self {
            Reason::Start => 1,
            Reason::Block(_) => 2,
            Reason::Under(s, _, _) => on_side(s, 3),
            Reason::Over(s, _, _) => on_side(s, 4),
            Reason::Ruby(s, _) => on_side(s, 5),
            Reason::Edge(s) => on_side(s, 6),
            Reason::Free => 11,
        }
    }

    /// The depth in half units that its rule permits, 0 where there is none.
    pub fn depth(self) -> u32
        ensures { result ≡ depth self }
    {
        match self {
            Reason::Under(_, _, d) | Reason::Over(_, _, d) => d,
            Reason::Start
            | Reason::Block(_)
            | Reason::Ruby(_, _)
            | Reason::Edge(_)
            | Reason::Free => 0,
        }
    }
}

// A number that tells a reason of the right side, or 4 more for one of the left.
fn on_side(s: Side, n: u32) -> u32
    requires { n ≤ 6 }
    ensures { result ≡ on_side s n }
{
    match s {
        Side::Right => n,
        Side::Left => n + 4,
    }
}
