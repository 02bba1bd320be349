// The table of a job behind the door: the house ratios, em, and a row for each base character. A row says how far its element goes on from here, where a line may end, and
// what level one has decided of the element, with what is known of its left reading; of a J of two characters or more what any part of it is measured by. Nobody above reads
// classes, widths of words or kinds. One function cuts a J (`part_upto`), one takes a line on by a piece (`advance`). It relies on `word` and `spread` for words and on `line` for places.
#![tactic(auto)]

ghost use Rattle.std.specs.Prelude.{◌≡◌, true, false, ◌+◌, ◌-◌, ◌*◌, ◌≤◌, ◌<◌, length};
ghost use Rattle.spread.specs.Ratio.{ratios_of};
ghost use Rattle.word.specs.Word.{between};
ghost use Rattle.line.specs.Setting.{furthest, total};
ghost use Rattle.cells.specs.Cells.{cell_at, beside, each_over, ruby_way, over_with, both, part, share_of, seen, element_of, step_of, step_at, Cuts, Plain, Advances};

use std::marker::Model;

/// The row of a base character: what is known of its element from it on. Widths are in units, lengths, places and depths in half units.
#[derive(Clone, Copy)]
pub struct Cell {
    /// How many base characters its element has from it on.
    pub bases: u32,
    /// A line may end between them: its element is a J of two or more.
    pub cut: bool,
    /// Its element goes on behind it, though it is a piece of its own (R-5: "a J with a mono left reading is set as one such M for each character").
    pub more: bool,
    /// Of a J: its ruby is Western.
    pub western: bool,
    /// A line may end behind them.
    pub ends: bool,
    /// The word of its element, set to nothing where `cut`.
    pub word: word::Word,
    /// How deep ruby may lie on it from its start, and from its end.
    pub before: u32,
    pub after: u32,
    /// The first left character of its element, or of its own left run in a J.
    pub left: u32,
    /// The first ruby character of its element, or of its own run in a J, and how many there are.
    pub ruby: u32,
    pub rubies: u32,
    /// Of a J: the width of its run, that of the runs of the J before it, and how many of those are longer than one em.
    pub own: u32,
    pub wide: u32,
    pub over: u32,
    /// How many left characters there are, and of a J the width of its left run.
    pub lefts: u32,
    pub ownleft: u32,
}

/// What is known of a base character's left reading: where it stands in its word, its first character and how many there are, the width of its own run, and `more`. It is
/// there where there are characters.
#[derive(Clone, Copy)]
pub struct LeftRow {
    pub from: u32,
    pub upto: u32,
    pub within: u32,
    pub runs: bool,
    pub more: bool,
    pub first: u32,
    pub many: u32,
    pub own: u32,
}

/// No left reading.
pub const NO_LEFT: LeftRow = LeftRow {
    from: 0,
    upto: 0,
    within: 0,
    runs: false,
    first: 0,
    many: 0,
    own: 0,
    more: false,
};

/// A piece in its line: its word, its origin, and the state of the line after it.
#[derive(Clone, Copy)]
pub struct Step {
    pub word: word::Word,
    pub at: u32,
    pub st: line::State,
}

/// No row: what a table has before it is written.
pub const NO_CELL: Cell = Cell {
    bases: 0,
    cut: false,
    ends: false,
    word: word::Word {
        front: 0,
        len: 0,
        inbase: 0,
        right: word::NONE,
        left: word::NONE,
    },
    before: 0,
    after: 0,
    ruby: 0,
    rubies: 0,
    left: 0,
    lefts: 0,
    own: 0,
    wide: 0,
    over: 0,
    western: false,
    ownleft: 0,
    more: false,
};

/// A table to be read: the house ratios, em in units, and the rows.
#[derive(Drop)]
pub struct Table<'a> {
    ratios: [[u32; 3]; 2],
    em: u32,
    list: &'a [Cell],
}

impl<'a> Model for Table<'a> {
    ghost use Rattle.spread.specs.Ratio.{ratios_of};
    ghost use Rattle.cells.specs.Rows.{Rows};

    ghost Value = { Rows };

    ghost view = { λ t. record { ratios = ratios_of t.ratios; em = t.em; rows = t.list.now } };
}

impl<'a> Table<'a> {
    /// A table of these ratios, the ruby's first, em in units, and these rows.
    pub fn new(ratios: [[u32; 3]; 2], em: u32, list: &'a [Cell]) -> Table<'a>
        ensures { result ≡ record { ratios = ratios_of ratios; em = em; rows = list.now } }
    {
        Table { ratios, em, list }
    }

    /// The house ratios, the ruby's first.
    pub fn ratios(&self) -> [[u32; 3]; 2]
        ensures { ratios_of result ≡ self.now.ratios }
    {
        self.ratios
    }

    /// Em, in units.
    pub fn em(&self) -> u32
        ensures { result ≡ self.now.em }
    {
        self.em
    }

    /// Row i, to be read field by field.
    pub fn row(&self, i: usize) -> &'a Cell
        requires { i < length self.now.rows }
        ensures { result.now ≡ cell_at self.now i }
    {
        let list = self.list;
        &list[i]
    }
}

/// A row with this left reading, which is there where it has characters.
#[inline(always)]
pub fn with_left(c: Cell, l: LeftRow) -> Cell
    ensures { result ≡ beside c l }
{
    let v = word::Reading {
        there: 0 < l.many,
        runs: l.runs,
        from: l.from,
        upto: l.upto,
        within: l.within,
    };
    Cell {
        word: word::Word { left: v, ..c.word },
        more: l.more,
        left: l.first,
        lefts: l.many,
        ownleft: l.own,
        ..c
    }
}

// The runs of one side, each over its own character: the first and the last of them.
fn runs_over(em: u32, b: u32, first: u32, last: u32) -> word::Reading
    requires { b ≤ 131072 }
    ensures { result ≡ between em b first last }
{
    word::Reading {
        there: true,
        from: em.saturating_sub(first),
        upto: (2 * b).saturating_sub(em.saturating_sub(last)),
        within: 0,
        runs: true,
    }
}

// A word of b units whose readings stand each over their own characters.
#[tactic(auto, unfolding(crate::specs::Cells::each_over))]
fn each_over(b: u32, right: word::Reading, left: word::Reading) -> word::Word
    requires { b ≤ 131072 }
    ensures { result ≡ each_over b right left }
{
    word::Word {
        front: 0,
        len: 2 * b,
        inbase: 0,
        right,
        left,
    }
}

fn ruby_way(western: bool) -> spread::Way
    ensures { result ≡ ruby_way western }
{
    if western {
        spread::Way::Solid
    } else {
        spread::Way::Limited
    }
}

// How many runs of its J up to and with its own are longer than one em.
fn over_with(em: u32, z: &Cell) -> u32
    requires { z.now.over ≤ 1024 }
    ensures { result ≡ over_with em z.now }
{
    if em < z.own { z.over + 1 } else { z.over }
}

// A part of a J with a left J, none of whose runs is longer than one em on either side: one character is set as M with a mono left reading, of more each run stands over
// its own character on both sides.
#[tactic(auto, unfolding(crate::specs::Cells::both, crate::specs::Cells::both_by))]
fn both_upto(t: &Table, i: usize, c: usize) -> word::Word
    requires { (0 < (cell_at t.now i).lefts) × (Cuts t.now i c) }
    ensures { result ≡ both t.now i c }
{
    let em = t.em();
    let a = t.row(i);
    let z = t.row(c - 1);
    let n = (c - i) as u32;
    let b = em * n;
    if n < 2 {
        let base = word::Str { width: b, count: n };
        let right = word::Str {
            width: a.own,
            count: a.rubies,
        };
        let left = word::Str {
            width: a.ownleft,
            count: a.lefts,
        };
        return word::monos_of(t.ratios(), em, base, right, left);
    }
    let right = runs_over(em, b, a.own, z.own);
    let left = runs_over(em, b, a.ownleft, z.ownleft);
    each_over(b, right, left)
}

/// The one place where a J is cut: the word of its base characters from i up to c. "A part of one character is set as M, a part of more as J": with no run longer than one
/// em each run stands over its own character, else the part is set as G.
#[inline(never)]
#[tactic(auto, unfolding(crate::specs::Cells::part, crate::specs::Cells::part_by))]
pub fn part_upto(t: &Table, i: usize, c: usize) -> word::Word
    requires { Cuts t.now i c }
    ensures { result ≡ part t.now i c }
{
    let em = t.em();
    let a = t.row(i);
    if 0 < a.lefts {
        return both_upto(t, i, c);
    }
    let z = t.row(c - 1);
    let n = (c - i) as u32;
    let b = em * n;
    let r = (z.wide + z.own).saturating_sub(a.wide);
    let m = (z.ruby + z.rubies).saturating_sub(a.ruby);
    let base = word::Str { width: b, count: n };
    let ruby = word::Str { width: r, count: m };
    let ratios = t.ratios();
    if n == 1 {
        return word::word_from(
            spread::Way::Solid,
            spread::Way::Solid,
            ratios,
            em,
            base,
            ruby,
        );
    }
    if a.over == over_with(em, z) {
        return each_over(b, runs_over(em, b, a.own, z.own), word::NONE);
    }
    word::word_from(
        ruby_way(a.western),
        spread::Way::Spread,
        ratios,
        em,
        base,
        ruby,
    )
}

// A word's reading as a line sees it. No `From`: neither type is this crate's, and `line` knows nothing of words.
fn seen_of(v: word::Reading) -> line::Reading
    ensures { result ≡ seen v }
{
    line::Reading {
        there: v.there,
        from: v.from,
        upto: v.upto,
    }
}

/// A word as a line sees it.
pub fn element_of(w: word::Word, before: u32, after: u32) -> line::Element
    ensures { result ≡ element_of w before after }
{
    let right = seen_of(w.right);
    let left = seen_of(w.left);
    line::Element {
        front: w.front,
        len: w.len,
        right,
        left,
        before: before,
        after: after,
    }
}

// A word set after the line so far.
#[inline(always)]
fn step_of(w: word::Word, before: u32, after: u32, st: line::State) -> Step
    requires { furthest st + total (element_of w before after) ≤ 4294967295 }
    ensures { result ≡ step_of w before after st }
{
    let p = line::place(st, element_of(w, before, after));
    let next = p.st;
    Step {
        word: w,
        at: p.at,
        st: next,
    }
}

/// What a row says of one side's characters: the first, how many there are, and the width of its own run.
#[derive(Clone, Copy)]
pub struct Share {
    pub first: u32,
    pub many: u32,
    pub own: u32,
}

/// The share of one side, which is a value: what differs is the fields that are read, and no step to be handed in.
pub fn share_at(t: &Table, i: usize, side: line::Side) -> Share
    requires { i < length t.now.rows }
    ensures { result ≡ share_of side (cell_at t.now i) }
{
    let a = t.row(i);
    match side {
        line::Side::Right => Share {
            first: a.ruby,
            many: a.rubies,
            own: a.own,
        },
        line::Side::Left => Share {
            first: a.left,
            many: a.lefts,
            own: a.ownleft,
        },
    }
}

// A word without a left reading after the line so far: nothing is asked of that side.
#[inline(always)]
fn one_sided(w: word::Word, st: line::State) -> Step
    requires { (w.left.there ≡ false) × (furthest st + total (element_of w 0 0) ≤ 4294967295) }
    ensures { result ≡ step_of w 0 0 st }
{
    let right = seen_of(w.right);
    let p = line::place(
        st,
        line::Element {
            front: w.front,
            len: w.len,
            right,
            left: line::NO_READING,
            before: 0,
            after: 0,
        },
    );
    Step {
        word: w,
        at: p.at,
        st: p.st,
    }
}

// A P after the line so far, by the three numbers of its row that say something of it.
#[inline(always)]
fn plain_at(a: &Cell, st: line::State) -> Step
    requires { Plain a.now × (furthest st + a.now.word.len ≤ 4294967295) }
    ensures { result ≡ step_of a.now.word a.now.before a.now.after st }
{
    let len = a.word.len;
    let p = line::place_plain(st, len, a.before, a.after);
    Step {
        word: word::Word {
            front: 0,
            len,
            inbase: 0,
            right: word::NONE,
            left: word::NONE,
        },
        at: p.at,
        st: p.st,
    }
}

/// The part of a J from i up to c after the line so far. Ruby lies on no word, so both depths are 0.
#[inline(always)]
#[tactic(auto, unfolding(crate::specs::Cells::word_at))]
pub fn advance_cut(t: &Table, i: usize, c: usize, st: line::State) -> Step
    requires { ((cell_at t.now i).cut ≡ true) × (Advances t.now st i c) }
    ensures { result ≡ step_at t.now st i c }
{
    step_of(part_upto(t, i, c), 0, 0, st)
}

/// The piece from i up to c after the line so far: a part of a J, a word as it stands in its row, or a P, of which no more is read than it needs.
#[inline(always)]
#[tactic(auto, unfolding(crate::specs::Cells::word_at))]
pub fn advance(t: &Table, i: usize, c: usize, st: line::State) -> Step
    requires { Advances t.now st i c }
    ensures { result ≡ step_at t.now st i c }
{
    let a = t.row(i);
    if a.cut {
        return advance_cut(t, i, c, st);
    }
    if a.word.right.there {
        if a.word.left.there {
            return step_of(a.word, 0, 0, st);
        }
        return one_sided(a.word, st);
    }
    plain_at(a, st)
}
