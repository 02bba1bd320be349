// Level two of document 01: a line of elements, each already set within itself, and the least setting of it by the four rules of
// clearance, with a reading on either side of a word (R-5 of document 02). specs/Rules.antt has the rules, specs/Setting.antt the
// setting, proofs/Theorems.antt and Exchange.antt what is proved of it. It knows nothing of words, classes or jobs: an element comes
// with its own lengths and the depths to which ruby may lie on it. It relies on basics. All positions are half units.
#![tactic(auto)]

ghost use Rattle.std.specs.Prelude.{◌≡◌, not, ◌&&◌, ◌+◌, ◌-◌, ◌≤◌, leb};
ghost use Rattle.line.specs.Setting.{from_in, reached, total, furthest, asks, origin, placed};
ghost use Rattle.line.specs.Plain.{plain};

/// The two sides of a word. The rules are said over a side, once for both.
#[derive(Clone, Copy, Debug, PartialEq, Eq)]
pub enum Side {
    Right,
    Left,
}

/// A reading in its element's coordinates: [from, upto), where it is there.
// A flag with its numbers beside it and no Option: measured, an Option takes 63 instructions an element in the setting where this takes 56.
#[derive(Clone, Copy)]
pub struct Reading {
    pub there: bool,
    pub from: u32,
    pub upto: u32,
}

/// No reading.
pub const NO_READING: Reading = Reading {
    there: false,
    from: 0,
    upto: 0,
};

/// One element as a line sees it, in its own coordinates, which count from the start of its longest string: its block is [front,
/// front + len), with a reading on either side. before and after are the depths to which a neighbour's ruby may lie on it from its
/// start and from its end.
// That its sums fit is asked by those who add, and no invariant: others take any numbers (`line_lists` judges them).
#[derive(Clone, Copy)]
pub struct Element {
    pub front: u32,
    pub len: u32,
    pub right: Reading,
    pub left: Reading,
    pub before: u32,
    pub after: u32,
}

/// What the line so far asks of the next element: the end of its last block, the furthest end of the rubies of each side, and the
/// depth to which ruby may lie on its last element.
#[derive(Clone, Copy)]
pub struct State {
    pub end: u32,
    pub right: u32,
    pub left: u32,
    pub room: u32,
}

/// At the line's start nothing stands yet.
pub const START: State = State {
    end: 0,
    right: 0,
    left: 0,
    room: 0,
};

/// An element's origin, and the state after it.
#[derive(Clone, Copy)]
pub struct Placed {
    pub at: u32,
    pub st: State,
}

// Where e's reading r starts in its own coordinates; where it isn't there the block's end, from which nothing more is asked.
fn ruby_from(e: Element, r: Reading) -> u32
    requires { e.front + e.len ≤ 4294967295 }
    ensures { result ≡ from_in e r }
{
    if r.there { r.from } else { e.front + e.len }
}

// How far the rubies of a side reach, up to `reach` so far, once an element with the reading r there is at x: where it has none, as they did.
fn reach_with(reach: u32, x: u32, r: Reading) -> u32
    requires { reached reach x r ≤ 4294967295 }
    ensures { result ≡ reached reach x r }
{
    if r.there {
        basics::larger(reach, x + r.upto)
    } else {
        reach
    }
}

// The least origin of e after st for one side, whose rubies reach up to `reach` so far and on which e has the reading r: the largest
// of four lower bounds, two on the block and two on the ruby.
#[tactic(auto, unfolding(crate::specs::Setting::asks))]
fn asked_by(st: State, e: Element, reach: u32, r: Reading) -> u32
    requires { e.front + e.len ≤ 4294967295 }
    ensures { result ≡ asks st e reach r }
{
    let from = ruby_from(e, r);
    // from where on its block may stand, and its ruby
    let block = basics::larger(st.end, reach.saturating_sub(e.before));
    let ruby = basics::larger(reach, st.end.saturating_sub(st.room));
    basics::larger(block.saturating_sub(e.front), ruby.saturating_sub(from))
}

// Whether the left side asks no more of e than the right one: e has no reading there, and none reaches past the last block.
fn left_idle(st: State, e: Element) -> bool
    ensures { result ≡ (not e.left.there && leb st.left st.end) }
{
    !e.left.there && st.left <= st.end
}

// The least origin of e after st that both sides allow. Most elements have no left reading, and then the right side decides alone.
#[tactic(auto, using(crate::proofs::Steps::side_steps), unfolding(crate::specs::Setting::origin))]
fn least_origin(st: State, e: Element) -> u32
    requires { e.front + e.len ≤ 4294967295 }
    ensures { result ≡ origin st e }
{
    let right = asked_by(st, e, st.right, e.right);
    if left_idle(st, e) {
        return right;
    }
    basics::larger(right, asked_by(st, e, st.left, e.left))
}

/// e set after st. What stands and e's own length have to fit a number together; of a job they are far from it (proofs/Bounded of job).
#[tactic(auto, using(crate::proofs::Steps::fit_steps))]
pub fn place(st: State, e: Element) -> Placed
    requires { furthest st + total e ≤ 4294967295 }
    ensures { result ≡ placed st e }
{
    let at = least_origin(st, e);
    Placed {
        at,
        st: State {
            end: at + e.front + e.len,
            right: reach_with(st.right, at, e.right),
            left: reach_with(st.left, at, e.left),
            room: e.after,
        },
    }
}

/// A P after st: it has no reading, and ruby lies on it no deeper than it is long, so of the bounds those on its block are left; that by ruby is asked only where
/// some reaches past the last block.
#[tactic(auto, using(crate::proofs::Steps::plain_steps))]
pub fn place_plain(st: State, len: u32, before: u32, after: u32) -> Placed
    requires { (before ≤ len) × (furthest st + len ≤ 4294967295) }
    ensures { result ≡ placed st (plain len before after) }
{
    let reach = basics::larger(st.right, st.left);
    // What this arm does is right for every P; the test is for speed, 11 instructions a character of plain text.
    if st.end < reach {
        let at = basics::larger(st.end, reach.saturating_sub(before));
        return Placed {
            at,
            st: State {
                end: at + len,
                room: after,
                ..st
            },
        };
    }
    Placed {
        at: st.end,
        st: State {
            end: st.end + len,
            room: after,
            ..st
        },
    }
}
