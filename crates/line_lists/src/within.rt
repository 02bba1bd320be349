// Whether an element is set within itself: `Sound` of line (specs/Rules.antt), test by test, and no longer than a word of a job.
ghost use Rattle.std.specs.Prelude.{◌≤◌, ◌≡◌, ◌↔◌, cond, T, IsTrue};
ghost use Rattle.line.specs.declared.Side.{Side};
ghost use Rattle.line.specs.Rules.{other, ruby, HasRuby, Inside, Around, Beside, Shape, Fits, Flush, Sound};
ghost use Rattle.line.specs.Setting.{total};
ghost use Rattle.line_lists.specs.Promise.{longest_element, SetWithin};

use line::{Element, Reading};

// How long an element of a job is at most.
const LONGEST_ELEMENT: u64 = 524288;

// Whether r lies within the block.
fn inside(e: Element, r: Reading) -> bool
    ensures { IsTrue result ↔ Inside e r }
{
    e.front <= r.from && r.from <= r.upto && r.upto as u64 <= e.front as u64 + e.len as u64
}

// Whether it lies around it.
fn around(e: Element, r: Reading) -> bool
    ensures { IsTrue result ↔ Around e r }
{
    r.from <= e.front && e.front as u64 + e.len as u64 <= r.upto as u64
}

// Whether it lies within the other reading, o, which lies around the block.
fn beside(e: Element, o: Reading, r: Reading) -> bool
    ensures { IsTrue result ↔ Beside e o r }
{
    o.there && around(e, o) && o.from <= r.from && r.from <= r.upto && r.upto <= o.upto
}

// Whether it has one of the three shapes.
fn shaped(e: Element, o: Reading, r: Reading) -> bool
    ensures { IsTrue result ↔ Shape e o r }
{
    inside(e, r) || around(e, r) || beside(e, o, r)
}

// Whether it has one of them and no ruby may lie on its element, where it is there.
fn well_set(e: Element, o: Reading, r: Reading) -> bool
    ensures { IsTrue result ↔ (T r.there → Fits e o r) }
{
    !r.there || e.before == 0 && e.after == 0 && shaped(e, o, r)
}

// Whether it is there and starts at its element's origin.
fn starts(r: Reading) -> bool
    ensures { IsTrue result ↔ (T r.there × (r.from ≡ 0)) }
{
    r.there && r.from == 0
}

// Whether any string of e does.
fn flush(e: Element) -> bool
    ensures { IsTrue result ↔ Flush e }
{
    e.front == 0 || starts(e.right) || starts(e.left)
}

// Whether r, where it is there, ends no further on than a word may be long.
fn near(r: Reading) -> bool
    ensures { IsTrue result ↔ (cond r.there r.upto 0 ≤ longest_element) }
{
    !r.there || r.upto as u64 <= LONGEST_ELEMENT
}

// Whether e is no longer than a word may be.
fn short(e: Element) -> bool
    ensures { IsTrue result ↔ (total e ≤ longest_element) }
{
    e.front as u64 + e.len as u64 <= LONGEST_ELEMENT && near(e.right) && near(e.left)
}

// Whether either reading is, by the one on the other side.
fn both_set(e: Element) -> bool
    ensures { IsTrue result ↔ ((s : Side) → HasRuby s e → Fits e (ruby (other s) e) (ruby s e)) }
{
    well_set(e, e.left, e.right) && well_set(e, e.right, e.left)
}

fn sound(e: Element) -> bool
    ensures { IsTrue result ↔ Sound e }
{
    0 < e.len && e.before <= e.len && e.after <= e.len && flush(e) && both_set(e)
}

/// Whether e is set within itself and no longer than a word, and the flags that say whether it has readings are 0 or 1.
pub fn set_within(right: u32, left: u32, e: Element) -> bool
    ensures { IsTrue result ↔ SetWithin right left e }
{
    right <= 1 && left <= 1 && short(e) && sound(e)
}
