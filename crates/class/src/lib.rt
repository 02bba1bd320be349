// The class table of document 01: for each class from 0 to 30 whether it is accepted, its kind, the sides on which it may carry a
// blank, and how deep ruby may lie on that blank. Every check and every rule of clearance consults this table; that it says what
// document 01 says is proved where it is handed out (specs/Class.antt; proofs/table). Beside it stands what a job's profile permits
// (`depths_by`, R-8), and nothing above knows of profiles. All functions here are total: any u32 is asked as it is. It relies on no
// other crate.
#![tactic(auto, using(crate::proofs::Steps::class_steps))]

ghost use Rattle.std.specs.Prelude.{◌≡◌, cond, ◌&&◌, ◌*◌, min, eqb};
ghost use Rattle.class.specs.Class.{accepted, western, kana_like, blank_before, blank_after, blank_whole, kind_of, deepest, depths_on, kana, may_lie, depths_by};
ghost use Rattle.class.specs.Entry.{entry_of, lies_before, lies_after, is_whole};
ghost use Rattle.class.specs.Laws.{tabled, is_kana, is_western};
ghost use Rattle.class.specs.Marks.{marked, says, is_deep, is_shallow, set_of, has_at};

/// The kinds of character (document 01, the class table).
#[derive(Clone, Copy, Debug, PartialEq, Eq)]
pub enum Kind {
    KanaLike,
    Western,
    /// The Western word space, class 26: accepted, yet neither of the two.
    Space,
    /// What no job may have.
    Outside,
}

// The sides on which a class may carry a blank; Whole where the whole width is blank.
#[derive(Clone, Copy, Debug, PartialEq, Eq)]
enum Sides {
    Before,
    After,
    Both,
    Neither,
    Whole,
}

// An entry of the table, in document 01's words: accepted, kind, blank sides and depth. `quarters` is the most that ruby may lie on
// the blank, in quarter ems. A byte to a field, since a constant table is laid out anew wherever it is read.
#[derive(Clone, Copy, Debug, PartialEq, Eq)]
struct Entry {
    accepted: bool,
    kind: Kind,
    sides: Sides,
    quarters: u8,
}

// Depths in quarter ems.
const NONE: u8 = 0;

const QUARTER: u8 = 1;

const HALF: u8 = 2;

// The entries that there are. Every class that may carry a blank is kana-like.
const OUTSIDE: Entry = Entry {
    accepted: false,
    kind: Kind::Outside,
    sides: Sides::Neither,
    quarters: NONE,
};

const KANA: Entry = Entry {
    accepted: true,
    kind: Kind::KanaLike,
    sides: Sides::Neither,
    quarters: NONE,
};

const BLANK_BEFORE: Entry = Entry {
    accepted: true,
    kind: Kind::KanaLike,
    sides: Sides::Before,
    quarters: HALF,
};

const BLANK_AFTER: Entry = Entry {
    accepted: true,
    kind: Kind::KanaLike,
    sides: Sides::After,
    quarters: HALF,
};

const BLANK_BOTH: Entry = Entry {
    accepted: true,
    kind: Kind::KanaLike,
    sides: Sides::Both,
    quarters: QUARTER,
};

const BLANK_WHOLE: Entry = Entry {
    accepted: true,
    kind: Kind::KanaLike,
    sides: Sides::Whole,
    quarters: HALF,
};

const WESTERN: Entry = Entry {
    accepted: true,
    kind: Kind::Western,
    sides: Sides::Neither,
    quarters: NONE,
};

const SPACE: Entry = Entry {
    accepted: true,
    kind: Kind::Space,
    sides: Sides::Neither,
    quarters: NONE,
};

// The names are those of JLReq.
const TABLE: [Entry; 31] = [
    OUTSIDE, // 0
    BLANK_BEFORE, // 1 opening brackets
    BLANK_AFTER, // 2 closing brackets
    KANA, // 3 hyphens
    KANA, // 4 dividing punctuation marks
    BLANK_BOTH, // 5 middle dots
    BLANK_AFTER, // 6 full stops
    BLANK_AFTER, // 7 commas
    KANA, // 8 inseparable characters
    KANA, // 9 iteration marks
    KANA, // 10 prolonged sound mark
    KANA, // 11 small kana
    KANA, // 12 prefixed abbreviations
    KANA, // 13 postfixed abbreviations
    BLANK_WHOLE, // 14 full-width ideographic space
    KANA, // 15 hiragana
    KANA, // 16 katakana
    KANA, // 17 math symbols
    KANA, // 18 math operators
    KANA, // 19 ideographic characters
    OUTSIDE, // 20 reference marks
    OUTSIDE, // 21 ornamented characters
    OUTSIDE, // 22 simple-ruby complex
    OUTSIDE, // 23 jukugo-ruby complex
    WESTERN, // 24 grouped numerals
    WESTERN, // 25 unit symbols
    SPACE, // 26 Western word space
    WESTERN, // 27 Western characters
    OUTSIDE, // 28 warichu opening brackets
    OUTSIDE, // 29 warichu closing brackets
    OUTSIDE, // 30 characters in tate-chu-yoko
];

// The table as it is read.
fn table() -> [Entry; 31]
    ensures { result ≡ tabled entry_of 0 31 }
{
    TABLE
}

fn means_kana(k: Kind) -> bool
    ensures { result ≡ is_kana k }
{
    k == Kind::KanaLike
}

fn means_western(k: Kind) -> bool
    ensures { result ≡ is_western k }
{
    k == Kind::Western
}

fn lies_before(s: Sides) -> bool
    ensures { result ≡ lies_before s }
{
    matches!(s, Sides::Before | Sides::Both)
}

fn lies_after(s: Sides) -> bool
    ensures { result ≡ lies_after s }
{
    matches!(s, Sides::After | Sides::Both)
}

fn is_whole(s: Sides) -> bool
    ensures { result ≡ is_whole s }
{
    matches!(s, Sides::Whole)
}

// What is asked of a class, of its entry.
#[derive(Clone, Copy, Debug, PartialEq, Eq)]
enum Mark {
    Accepted,
    Kana,
    Western,
    Before,
    After,
    Whole,
    // May ruby lie on it at all?
    Deep,
    // And to a quarter em at most?
    Shallow,
}

// A mark is a value, so that each set that is read off the table is a number once compiled; a closure handed in would be called in the loop.
fn marks(e: Entry, which: Mark) -> bool
    ensures { result ≡ marked which e }
{
    let kind = e.kind;
    let sides = e.sides;
    match which {
        Mark::Accepted => e.accepted,
        Mark::Kana => means_kana(kind),
        Mark::Western => means_western(kind),
        Mark::Before => lies_before(sides),
        Mark::After => lies_after(sides),
        Mark::Whole => is_whole(sides),
        Mark::Deep => NONE < e.quarters,
        Mark::Shallow => e.quarters == QUARTER,
    }
}

// A loop over characters would have the table laid out anew for each of them. So a class is looked up in the set of those that have a mark, read off the table
// as a number, one binary digit for each class, class 0 lowest. Where the mark is named at the call, as it is below, the compiler works that number out, and
// leaves it where the loop over the table was; a mark that is handed on leaves the loop in.

fn worth(has: bool, place: u32) -> u32
    ensures { result ≡ cond has place 0 }
{
    if has { place } else { 0 }
}

// The classes of the table that have a mark.
fn marked_in(table: [Entry; 31], which: Mark) -> u32
    requires { table ≡ tabled entry_of 0 31 }
    ensures { result ≡ set_of (says which) 31 }
{
    let mut set: u32 = 0;
    let mut place: u32 = 1;
    for class in 0..31 {
        set += worth(marks(table[class], which), place);
        place *= 2;
    }
    set
}

// Past the table no class has any mark.
fn has(set: u32, class: u32) -> bool
    ensures { result ≡ has_at set class }
{
    class < 31 && (set >> class) % 2 == 1
}

/// Whether a job may have the class.
pub fn is_accepted(class: u32) -> bool
    ensures { result ≡ accepted class }
{
    has(marked_in(table(), Mark::Accepted), class)
}

/// Whether it is kana-like.
pub fn is_kana(class: u32) -> bool
    ensures { result ≡ kana_like class }
{
    has(marked_in(table(), Mark::Kana), class)
}

/// Whether it is Western.
pub fn is_western(class: u32) -> bool
    ensures { result ≡ western class }
{
    has(marked_in(table(), Mark::Western), class)
}

/// What is accepted and neither of the two is the word space: read off the table, one question after the other.
pub fn kind_of(class: u32) -> Kind
    ensures { result ≡ kind_of class }
{
    if is_kana(class) {
        return Kind::KanaLike;
    }
    if is_western(class) {
        return Kind::Western;
    }
    if is_accepted(class) {
        Kind::Space
    } else {
        Kind::Outside
    }
}

/// May there be a blank before?
pub fn may_have_before(class: u32) -> bool
    ensures { result ≡ blank_before class }
{
    has(marked_in(table(), Mark::Before), class)
}

/// May there be one after?
pub fn may_have_after(class: u32) -> bool
    ensures { result ≡ blank_after class }
{
    has(marked_in(table(), Mark::After), class)
}

fn is_blank(class: u32) -> bool
    ensures { result ≡ blank_whole class }
{
    has(marked_in(table(), Mark::Whole), class)
}

fn is_deep(class: u32) -> bool
    ensures { result ≡ is_deep class }
{
    has(marked_in(table(), Mark::Deep), class)
}

fn is_shallow(class: u32) -> bool
    ensures { result ≡ is_shallow class }
{
    has(marked_in(table(), Mark::Shallow), class)
}

// How deep ruby may lie on a class with a blank, in half units: half an em or a quarter em.
fn deepest_on(class: u32, em: u32) -> u32
    ensures { result ≡ deepest class em }
{
    if is_shallow(class) { em / 2 } else { em }
}

// How deep it lies on this blank, in half units. In u64, so that no width and no em is too large.
fn depth_on(blank: u32, most: u32) -> u32
    ensures { result ≡ min (2 * blank) most }
{
    let lies = 2 * blank as u64;
    if lies <= most as u64 {
        lies as u32
    } else {
        most
    }
}

// The blank of a side counts only where the class may have one there.
fn side_depth(side: bool, blank: u32, most: u32) -> u32
    ensures { result ≡ min (2 * cond side blank 0) most }
{
    if side { depth_on(blank, most) } else { 0 }
}

// The profile for older children (document 02, R-8), and the classes of kana that it names.
const OLDER: u32 = 1;

const HIRAGANA: u32 = 15;

const KATAKANA: u32 = 16;

/// How deep the ruby before a P character may lie on it, past its start, and the ruby after it, before its end; in half units.
#[derive(Clone, Copy, Debug, PartialEq, Eq)]
pub struct Depths {
    pub before: u32,
    pub after: u32,
}

// How deep ruby may lie on a P character by document 01 with R-1; `first`: it is base character 0 of the job.
fn depths_on(first: bool, class: u32, width: u32, before: u32, after: u32, em: u32) -> Depths
    ensures { result ≡ depths_on first class width before after em }
{
    if !is_deep(class) {
        return Depths {
            before: 0,
            after: 0,
        };
    }
    if is_blank(class) {
        // "a class 14 character that is the job's first element takes no ruby at all" (document 02, R-1).
        if first {
            return Depths {
                before: 0,
                after: 0,
            };
        }
        let d = depth_on(width, deepest_on(class, em));
        return Depths {
            before: d,
            after: d,
        };
    }
    let most = deepest_on(class, em);
    Depths {
        before: side_depth(may_have_before(class), before, most),
        after: side_depth(may_have_after(class), after, most),
    }
}

// "Profile 1 permits ruby on a P element of class 15 or 16 just before or just after" (document 02, R-8).
fn lies_on_kana(profile: u32, class: u32) -> bool
    ensures { result ≡ (eqb profile 1 && kana class) }
{
    profile == OLDER && matches!(class, HIRAGANA | KATAKANA)
}

/// Whether ruby may lie on a P character at all: where it may not, nobody need read its blanks.
pub fn takes_ruby(profile: u32, class: u32) -> bool
    ensures { result ≡ may_lie profile class }
{
    lies_on_kana(profile, class) || is_deep(class)
}

/// How deep ruby may lie on a P character by the job's profile.
pub fn depths_by(
    profile: u32,
    first: bool,
    class: u32,
    width: u32,
    before: u32,
    after: u32,
    em: u32,
) -> Depths
    ensures { result ≡ depths_by profile first class width before after em }
{
    if lies_on_kana(profile, class) {
        // "to a depth of at most one ruby em (half the em) and at most its width", in half units
        let d = depth_on(width, em);
        return Depths {
            before: d,
            after: d,
        };
    }
    depths_on(first, class, width, before, after, em)
}
