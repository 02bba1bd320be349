// Words with a left reading (document 02, R-5). An element with a left reading is measured with it, and has its rows written with it, or its refusal handed up. It relies
// on `word` for level one, on `door` for how many runs an element takes, and on `word_rows` and `cells` for rows.
#![tactic(auto)]

ghost use Rattle.std.specs.Prelude.{◌≡◌, ◌||◌, [], ◌+◌, ◌≤◌, ◌<◌, length};
ghost use Rattle.spread.specs.Ratio.{ratios_of, Housed};
ghost use Rattle.word.specs.Both.{apart};
ghost use Rattle.word.specs.Sides.{monos_word, Strings};
ghost use Rattle.line.specs.declared.Side.TheVariants as side;
ghost use Rattle.door.specs.Job.{takes_runs, takes_left_runs, given};
ghost use Rattle.cells.specs.Rows.{row_in};
ghost use Rattle.cells.specs.Cells.{beside};
ghost use Rattle.word.specs.Summed.{given_base};
ghost use Rattle.word_rows.specs.Table.{Filled};
ghost use Rattle.word_rows.specs.Base.{BaseReady, bases_now, bases_was};
ghost use Rattle.word_rows.specs.Runs.{both_only, Runs, HasRuns, own_word, jukugo_row};
ghost use Rattle.word_rows.specs.Seen.{runs_now, runs_was};
ghost use Rattle.two_readings.specs.Left.{left_row_of, left_row, left_run_row, cell_of, character_both, Characters, own_row, WholePut, StrandReady, strand_in};
ghost use Rattle.two_readings.specs.Seen.{lefts_now, lefts_was, whole_now, whole_was};

use cells::{Cell, LeftRow};

// What is known of the left reading v: its first character, how many there are, and the width of its own run.
#[inline(always)]
fn left_row(v: word::Reading, first: u32, many: u32, own: u32, more: bool) -> LeftRow
    ensures { result ≡ left_row_of v first many own more }
{
    LeftRow {
        from: v.from,
        upto: v.upto,
        within: v.within,
        runs: v.runs,
        first,
        many,
        own,
        more,
    }
}

// The left readings of a J that is laid by runs, put into its rows; v is its left reading where it is no longer than one character.
fn put_left_runs(rows: &mut [Cell], p: door::Piece, v: word::Reading, lwidth: &[u32], lruns: &[u32])
    requires { Runs side.Left (lefts_now lwidth lruns) p × (p.base + p.bases ≤ length rows.old) }
    ensures { Filled (λ i. beside (row_in rows.old i) (left_run_row (lefts_was lwidth lruns) p v i)) p.base (p.base + p.bases) rows.old rows.new }
{
    let n = p.base + p.bases;
    let mut l = p.left;
    for i in p.base..n {
        let run = lruns[p.leftrun + (i - p.base)];
        let own = word_rows::run_width(l, l + run as usize, lwidth);
        rows[i] = cells::with_left(rows[i], left_row(v, l as u32, run, own, p.more));
        l += run as usize;
    }
}

// A J that is cut: its rows by runs, and its left readings.
fn put_cut(
    rows: &mut [Cell],
    p: door::Piece,
    w: word::Word,
    ends: bool,
    em: u32,
    rclass: &[u32],
    rwidth: &[u32],
    runs: &[u32],
    lwidth: &[u32],
    lruns: &[u32],
)
    requires { HasRuns (runs_now em rclass rwidth runs) p rows.old × Runs side.Left (lefts_now lwidth lruns) p }
    ensures { Filled (λ i. beside (jukugo_row (runs_was em rclass rwidth runs) p w ends i) (left_run_row (lefts_was lwidth lruns) p (own_word p w).left i)) p.base (p.base + p.bases) rows.old rows.new }
{
    word_rows::put_runs(rows, p, w, ends, cells::NO_LEFT, em, rclass, rwidth, runs);
    let v = word_rows::own_word(p, w).left;
    put_left_runs(rows, p, v, lwidth, lruns);
}

// The row of one character of a J with a mono left reading.
#[inline(always)]
fn character_cell(w: word::Word, ends: bool, ruby: u32, rubies: u32) -> Cell
    ensures { result ≡ cell_of w ends ruby rubies }
{
    Cell {
        bases: 1,
        ends,
        word: w,
        ruby,
        rubies,
        ..cells::NO_CELL
    }
}

// One character's word: "Mono with mono is solid and centred on both sides."
fn character_word(
    ratios: [[u32; 3]; 2],
    em: u32,
    base: u32,
    run: u32,
    own: u32,
    lrun: u32,
    lown: u32,
) -> word::Word
    requires { Strings (record { width = base; count = 1 }) (record { width = own; count = run }) (record { width = lown; count = lrun }) × Housed (ratios_of ratios) }
    ensures { result ≡ monos_word (ratios_of ratios) em (record { width = base; count = 1 }) (record { width = own; count = run }) (record { width = lown; count = lrun }) }
{
    let b = word::Str {
        width: base,
        count: 1,
    };
    let r = word::Str {
        width: own,
        count: run,
    };
    let l = word::Str {
        width: lown,
        count: lrun,
    };
    word::monos_of(ratios, em, b, r, l)
}

/// "a J with a mono left reading is set as one such M for each character": a line may end behind each, as its element goes on, and behind the last by the flag.
pub fn put_characters(
    rows: &mut [Cell],
    p: door::Piece,
    ends: bool,
    ratios: [[u32; 3]; 2],
    em: u32,
    width: &[u32],
    rwidth: &[u32],
    runs: &[u32],
    lwidth: &[u32],
    lruns: &[u32],
)
    requires { let job = both_only (ratios_of ratios) em [] width.now [] [] [] [] rwidth.now runs.now [] lwidth.now lruns.now in Characters job p rows.old }
    ensures { let job = both_only (ratios_of ratios) em [] width.now [] [] [] [] rwidth.now runs.now [] lwidth.now lruns.now in Filled (character_both job p ends) p.base (p.base + p.bases) rows.old rows.new }
{
    let n = p.base + p.bases;
    let mut r = p.ruby;
    let mut l = p.left;
    for i in p.base..n {
        let run = runs[p.run + (i - p.base)];
        let lrun = lruns[p.leftrun + (i - p.base)];
        let own = word_rows::run_width(r, r + run as usize, rwidth);
        let lown = word_rows::run_width(l, l + lrun as usize, lwidth);
        let w = character_word(ratios, em, width[i], run, own, lrun, lown);
        let more = i + 1 < n;
        let over = more || ends;
        let row = character_cell(w, over, r as u32, run);
        rows[i] = cells::with_left(row, left_row(w.left, l as u32, lrun, 0, more));
        r += run as usize;
        l += lrun as usize;
    }
}

/// Each of its characters is set as an M of its own.
pub fn is_apart(p: door::Piece) -> bool
    ensures { result ≡ apart p.form p.gloss }
{
    matches!((p.form, p.gloss), (word::Form::J, word::Left::M))
}

/// The rows of a word with a left reading that is not taken apart. A J is cut where its runs stand over their own characters, as its record says.
pub fn put_whole(
    rows: &mut [Cell],
    p: door::Piece,
    w: word::Word,
    ends: bool,
    em: u32,
    rclass: &[u32],
    rwidth: &[u32],
    runs: &[u32],
    lwidth: &[u32],
    lruns: &[u32],
)
    requires { let job = whole_now em rclass rwidth runs lwidth lruns in WholePut job p w rows.old }
    ensures { let job = whole_was em rclass rwidth runs lwidth lruns in Filled (own_row job p w ends) p.base (p.base + p.bases) rows.old rows.new }
{
    let right = w.right;
    if right.runs {
        put_cut(rows, p, w, ends, em, rclass, rwidth, runs, lwidth, lruns);
    } else {
        let left = left_row(w.left, p.left as u32, p.lefts as u32, 0, p.more);
        word_rows::put_word(rows, p, w, ends, left);
    }
}

/// The base of an element with a left reading, as level one asks for it. `one_reading::base_at` is the same for the others: with two callers it would be put into neither, and a word
/// without a left reading would pay for that.
pub fn base_beside(
    p: door::Piece,
    em: u32,
    class: &[u32],
    width: &[u32],
    before: &[u32],
    after: &[u32],
) -> word::Base
    requires { let job = bases_now em class width before after in BaseReady job p }
    ensures { let job = bases_was em class width before after in result ≡ given_base p.form (given job p) }
{
    let b = p.base;
    let e = b + p.bases;
    let form = p.form;
    let blank = word::blank_inside(&before[b..e], &after[b..e]);
    let sort = word::sort_of(&class[b..e]);
    let uneven = word::is_uneven(form, em, &width[b..e]);
    let string = word::str_of(&width[b..e]);
    word::Base {
        blank,
        sort,
        uneven,
        string,
    }
}

// One side's characters, the first of them and how many, with its runs, the first of these and how many: what level one asks of a reading that may be laid by runs.
fn strand_at(
    first: usize,
    many: usize,
    run: usize,
    taken: usize,
    em: u32,
    cs: &[u32],
    ws: &[u32],
    runs: &[u32],
) -> word::RunStrand
    requires { StrandReady first many run taken cs.now ws.now runs.now }
    ensures { result ≡ strand_in em first many run taken cs.now ws.now runs.now }
{
    let e = first + many;
    let v = run + taken;
    word::run_strand_of(em, &cs[first..e], &ws[first..e], &runs[run..v])
}

/// A word's ruby, as level one asks for it.
pub fn right_at(
    p: door::Piece,
    em: u32,
    rclass: &[u32],
    rwidth: &[u32],
    runs: &[u32],
) -> word::RunStrand
    requires { StrandReady p.ruby p.rubies p.run (takes_runs p.form p.bases) rclass.now rwidth.now runs.now }
    ensures { result ≡ strand_in em p.ruby p.rubies p.run (takes_runs p.form p.bases) rclass.now rwidth.now runs.now }
{
    let taken = door::runs_taken(p);
    strand_at(p.ruby, p.rubies, p.run, taken, em, rclass, rwidth, runs)
}

/// Its left reading.
pub fn left_at(
    p: door::Piece,
    em: u32,
    lclass: &[u32],
    lwidth: &[u32],
    lruns: &[u32],
) -> word::RunStrand
    requires { StrandReady p.left p.lefts p.leftrun (takes_left_runs p.form p.gloss p.bases) lclass.now lwidth.now lruns.now }
    ensures { result ≡ strand_in em p.left p.lefts p.leftrun (takes_left_runs p.form p.gloss p.bases) lclass.now lwidth.now lruns.now }
{
    let taken = door::left_runs_taken(p);
    strand_at(p.left, p.lefts, p.leftrun, taken, em, lclass, lwidth, lruns)
}
