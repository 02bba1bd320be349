// What the ways of an element with one reading and of one with two share: the rows of a word that is not cut, the rows of a J by its runs, whether a line may end behind it, and level
// one's refusal handed up. It relies on `cells` for rows, on `class` for kinds, and on `join` for what a row says.
#![tactic(auto)]

ghost use Rattle.std.specs.Prelude.{◌≡◌, ◌+◌, ◌-◌, ◌≤◌, ◌<◌, eqb, length, get_or};
ghost use Rattle.basics.specs.Seen.{was};
ghost use Rattle.basics.specs.Lists.{sum};
ghost use Rattle.door.specs.Job.{entries};
ghost use Rattle.cells.specs.Cells.{beside};
ghost use Rattle.word_rows.specs.Table.{Filled, bare_row};
ghost use Rattle.word_rows.specs.Runs.{HasRuns, own_word, jukugo_row, past_run};
ghost use Rattle.word_rows.specs.Word.{word_row, stop_by, stop_at};
ghost use Rattle.word_rows.specs.Seen.{runs_now, runs_was};

use cells::{Cell, LeftRow};
use refusal::Refusal;

/// The word of a row of a J that is measured by its runs.
pub const NONE: word::Word = word::Word {
    front: 0,
    len: 0,
    inbase: 0,
    right: word::NONE,
    left: word::NONE,
};

/// What stands in the row of a base character without a left reading: the next left characters begin at `left`.
#[inline(always)]
pub fn bare(left: u32) -> LeftRow
    ensures { result ≡ bare_row left }
{
    LeftRow {
        first: left,
        ..cells::NO_LEFT
    }
}

/// The rows of an M or a G, beside its left reading.
pub fn put_word(rows: &mut [Cell], p: door::Piece, w: word::Word, ends: bool, left: LeftRow)
    requires { (p.base + p.bases ≤ length rows.old) × (p.base + p.bases ≤ 4096) × (p.ruby ≤ 4096) × (p.rubies ≤ 4096) }
    ensures { Filled (λ i. beside (word_row p w ends 0 0 i) left) p.base (p.base + p.bases) rows.old rows.new }
{
    let e = p.base + p.bases;
    let word = Cell {
        ends,
        word: w,
        ruby: p.ruby as u32,
        rubies: p.rubies as u32,
        ..cells::NO_CELL
    };
    let row = cells::with_left(word, left);
    for i in p.base..e {
        rows[i] = Cell {
            bases: (e - i) as u32,
            ..row
        };
    }
}

/// How far a J's ruby is laid: its characters, the width of its runs so far, and how many of those are longer than one em.
#[derive(Clone, Copy)]
pub struct Cursor {
    pub ruby: usize,
    pub wide: u32,
    pub over: u32,
}

/// The width of the run of ruby characters r up to e.
pub fn run_width(r: usize, e: usize, rwidth: &[u32]) -> u32
    requires { (r ≤ e) × (e ≤ 4096) × (e ≤ length rwidth.now) × (sum (entries rwidth.now r (e - r)) ≤ 262144) }
    ensures { result ≡ sum (entries rwidth.now r (e - r)) }
{
    basics::sum_of(&rwidth[r..e])
}

/// The word that a row of a J has: of two characters or more none, as such a J is measured by its sums, and by parts.
#[inline(always)]
pub fn own_word(p: door::Piece, w: word::Word) -> word::Word
    ensures { result ≡ own_word p w }
{
    if 1 < p.bases {
        return NONE;
    }
    w
}

// One run more.
#[inline(always)]
fn past_run(at: Cursor, run: u32, own: u32, em: u32) -> Cursor
    requires { (at.ruby ≤ 4096) × (at.wide + own ≤ 262144) × (at.over ≤ 1024) }
    ensures { result ≡ past_run at run own em }
{
    let ruby = at.ruby + run as usize;
    let wide = at.wide + own;
    if em < own {
        return Cursor {
            ruby,
            wide,
            over: at.over + 1,
        };
    }
    Cursor {
        ruby,
        wide,
        over: at.over,
    }
}

/// The rows of a J that is laid by runs, beside a left reading. It is put into its callers: most know that no row has a word, and then these numbers are written as they stand.
#[inline(always)]
pub fn put_runs(
    rows: &mut [Cell],
    p: door::Piece,
    w: word::Word,
    ends: bool,
    left: LeftRow,
    em: u32,
    rclass: &[u32],
    rwidth: &[u32],
    runs: &[u32],
)
    requires { HasRuns (runs_now em rclass rwidth runs) p rows.old }
    ensures { let job = runs_was em rclass rwidth runs in Filled (λ i. beside (jukugo_row job p w ends i) left) p.base (p.base + p.bases) rows.old rows.new }
{
    let n = p.base + p.bases;
    let word = Cell {
        cut: 1 < p.bases,
        ends,
        word: own_word(p, w),
        ..cells::NO_CELL
    };
    let row = cells::with_left(word, left);
    let mut at = Cursor {
        ruby: p.ruby,
        wide: 0,
        over: 0,
    };
    for i in p.base..n {
        let run = runs[p.run + (i - p.base)];
        let r = at.ruby;
        let own = run_width(r, r + run as usize, rwidth);
        let western = class::is_western(rclass[r]);
        rows[i] = Cell {
            bases: (n - i) as u32,
            ruby: r as u32,
            rubies: run,
            own,
            wide: at.wide,
            over: at.over,
            western,
            ..row
        };
        at = past_run(at, run, own, em);
    }
}

/// Level one's refusal, handed up as it is.
pub fn refused(place: u32, answer: word::Answer) -> Result<door::Piece, Refusal>
    ensures { result ≡ stop_by place answer }
{
    let word::Answer::Refused(told) = answer else {
        return Err(Refusal::Element(place)); // unreachable: a word is no refusal
    };
    Err(told)
}

/// Level one's refusal of a J that it was asked to judge alone, handed up as it is: by let-else like the one above, as document 01 has it of level one's answers, and not by `?`.
pub fn held(place: u32, row: Result<(), Refusal>) -> Result<door::Piece, Refusal>
    ensures { result ≡ stop_at place row }
{
    let Err(why) = row else {
        return Err(Refusal::Element(place)); // unreachable: of a J that passes nothing is handed up
    };
    Err(why)
}

/// Whether a line may end behind an element.
pub fn ends_behind(p: door::Piece, flag: &[u32]) -> bool
    requires { (0 < p.bases) × (p.base + p.bases ≤ 1024) × (p.base + p.bases ≤ length flag.now) }
    ensures { result ≡ eqb (get_or flag.now (p.base + p.bases - 1) 0) 1 }
{
    let e = p.base + p.bases - 1;
    flag[e] == 1
}
