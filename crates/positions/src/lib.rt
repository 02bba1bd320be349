// Where the characters of the lines stand (document 01, "Refusal list": "a position for each base character, one for each ruby character, and for each line
// the count of base characters up to its end"; of R-5 one for each left character too), by the rows of the job's table: piece by piece its place in the line, and its
// characters from there on. The readings of both sides are written by one function. Beside the table only the widths of the characters are read. It relies on `cells`
// for rows and pieces, on `spread` for the characters of a string, and on `line`.
#![tactic(auto)]

ghost use Rattle.std.specs.Prelude.{◌≡◌, ◌+◌, ◌-◌, ◌*◌, ◌≤◌, ◌<◌, length, take};
ghost use Rattle.std.proofs.lemmas.List.Edits.{sets};
ghost use Rattle.spread.specs.Gap.{starts};
ghost use Rattle.word.specs.Word.{base_starts};
ghost use Rattle.line.specs.declared.Side.TheVariants.{Right, Left};
ghost use Rattle.positions.specs.Positions.{sheet, lent, over, first, reading_end, runs_put, reading_by, base_of, ruby_of, left_of, base_over, side_over, lines_over};
ghost use Rattle.positions.specs.Ready.{StringReady, LineReady, LinesReady};
ghost use Rattle.positions.specs.Runs.{RunsReady};
ghost use Rattle.positions.specs.Piece.{ReadingReady};
ghost use Rattle.positions.specs.Word.{WordReady, WordPut};
ghost use Rattle.cells.specs.Cells.{word_at};

// The starts of the characters a up to e, the first of them at `at`, with `within` half units of space within the string.
fn put_string(at: u32, within: u32, a: usize, e: usize, ws: &[u32], out: &mut [u32])
    requires { StringReady at within a e ws.now out.old }
    ensures { out.new ≡ sets out.old a (starts within at (lent ws.now a e)) }
{
    spread::put_starts(&ws[a..e], at, within, &mut out[a..e]);
}

// The base characters i up to c, the origin of their word w at `at`.
#[tactic(auto, unfolding(word::specs::Word::base_starts))]
fn put_base(w: word::Word, at: u32, i: usize, c: usize, width: &[u32], base: &mut [u32])
    requires { StringReady (at + w.front) w.inbase i c width.now base.old }
    ensures { base.new ≡ sets base.old i (base_starts w at (lent width.now i c)) }
{
    put_string(at + w.front, w.inbase, i, c, width, base);
}

// One side's runs of a J from i up to c, each solid over its own character of one em, the first of which starts at `at`.
fn put_runs(
    t: &cells::Table,
    i: usize,
    c: usize,
    side: line::Side,
    at: u32,
    ws: &[u32],
    out: &mut [u32],
)
    requires { RunsReady side t.now i c at ws.now out.old }
    ensures { let u = t.now in out.new ≡ sets out.old (first side u i) (runs_put side u ws.now (c - i) i at) }
{
    let em = t.em();
    let mut x = at;
    for k in i..c {
        let own = cells::share_at(t, k, side);
        let r = own.first as usize;
        let e = r + own.many as usize;
        put_string(x + (em - own.own), 0, r, e, ws, out);
        x += 2 * em;
    }
}

/// Where the characters of one side of the piece from i up to c end.
pub fn reading_upto(t: &cells::Table, i: usize, c: usize, side: line::Side) -> usize
    requires { (i < c) × (c ≤ 1024) × (c ≤ length t.now.rows) }
    ensures { result ≡ reading_end side t.now i c }
{
    let a = t.row(i);
    if a.cut {
        let z = cells::share_at(t, c - 1, side);
        return z.first as usize + z.many as usize;
    }
    let s = cells::share_at(t, i, side);
    s.first as usize + s.many as usize
}

// The reading v on one side of the piece from i up to c, where it has one, the origin of its word at `at`.
#[tactic(auto, unfolding(crate::specs::Positions::reading_by))]
fn put_reading(
    t: &cells::Table,
    i: usize,
    c: usize,
    side: line::Side,
    v: word::Reading,
    at: u32,
    ws: &[u32],
    out: &mut [u32],
)
    requires { ReadingReady side t.now i c v at ws.now out.old }
    ensures { let u = t.now in out.new ≡ sets out.old (first side u i) (reading_by side u ws.now v i c at) }
{
    if v.there {
        if v.runs {
            put_runs(t, i, c, side, at, ws, out);
            return;
        }
        let s = cells::share_at(t, i, side);
        let r = s.first as usize;
        let e = reading_upto(t, i, c, side);
        put_string(at + v.from, v.within, r, e, ws, out);
    }
}

// The base characters of a line or of a piece: from the first up to where the next one begins.
#[derive(Clone, Copy)]
struct Span {
    first: usize,
    upto: usize,
}

// The widths of all characters: of base, of ruby, of left readings.
#[derive(Clone, Copy)]
struct Widths<'a> {
    base: &'a [u32],
    ruby: &'a [u32],
    left: &'a [u32],
}

// A word of the piece l, its origin at `at`.
#[inline(always)]
fn put_word(
    t: &cells::Table,
    l: Span,
    w: &word::Word,
    at: u32,
    widths: &Widths,
    base: &mut [u32],
    ruby: &mut [u32],
    left: &mut [u32],
)
    requires { let ws = widths.now in WordReady t.now l.first l.upto w.now at ws.base.now ws.ruby.now ws.left.now base.old ruby.old left.old }
    ensures { let ws = widths.now in WordPut t.now l.first l.upto w.now at ws.base.now ws.ruby.now ws.left.now base.old ruby.old left.old base.new ruby.new left.new }
{
    let i = l.first;
    let c = l.upto;
    put_base(*w, at, i, c, widths.base, base);
    put_reading(t, i, c, line::Side::Right, w.right, at, widths.ruby, ruby);
    put_reading(t, i, c, line::Side::Left, w.left, at, widths.left, left);
}

// The word of the piece l, which is w. That of a piece that is not cut is read in its row, so that none of it is kept beside the line's state.
#[inline(always)]
fn put_piece(
    t: &cells::Table,
    l: Span,
    w: word::Word,
    at: u32,
    widths: &Widths,
    base: &mut [u32],
    ruby: &mut [u32],
    left: &mut [u32],
)
    requires { let ws = widths.now in (l.first < length t.now.rows) × (w ≡ word_at t.now l.first l.upto) × WordReady t.now l.first l.upto w at ws.base.now ws.ruby.now ws.left.now base.old ruby.old left.old }
    ensures { let ws = widths.now in WordPut t.now l.first l.upto w at ws.base.now ws.ruby.now ws.left.now base.old ruby.old left.old base.new ruby.new left.new }
{
    let a = t.row(l.first);
    if a.cut {
        put_word(t, l, &w, at, widths, base, ruby, left);
    } else {
        put_word(t, l, &a.word, at, widths, base, ruby, left);
    }
}

// A line. A piece without ruby is a P, one character at its origin.
fn put_line(
    t: &cells::Table,
    l: Span,
    width: &[u32],
    rwidth: &[u32],
    lwidth: &[u32],
    base: &mut [u32],
    ruby: &mut [u32],
    left: &mut [u32],
)
    requires { LineReady (sheet t.now width.now rwidth.now lwidth.now) l.first l.upto base.old ruby.old left.old }
    ensures { let g = sheet t.now width.now rwidth.now lwidth.now in let s = l.first in let e = l.upto in (base.new ≡ base_over g s e base.old) × (ruby.new ≡ side_over Right g s e ruby.old) × (left.new ≡ side_over Left g s e left.old) }
{
    let e = l.upto;
    let widths = Widths {
        base: width,
        ruby: rwidth,
        left: lwidth,
    };
    let mut i = l.first;
    let mut st = line::START;
    // From piece to piece: a row says where the next one begins.
    while i < e {
        let a = t.row(i);
        let end = i + a.bases as usize;
        let c = e.min(end);
        let step = cells::advance(t, i, c, st);
        let w = step.word;
        let over = w.right;
        if over.there {
            let piece = Span { first: i, upto: c };
            put_piece(t, piece, w, step.at, &widths, base, ruby, left);
        } else {
            base[i] = step.at;
        }
        st = step.st;
        i = end;
    }
}

/// The positions of all characters, in lines that end where `ends` says.
pub fn put_lines(
    t: &cells::Table,
    ends: &[u32],
    width: &[u32],
    rwidth: &[u32],
    lwidth: &[u32],
    base: &mut [u32],
    ruby: &mut [u32],
    left: &mut [u32],
)
    requires { LinesReady (sheet t.now width.now rwidth.now lwidth.now) (length ends.now) ends.now base.old ruby.old left.old }
    ensures { let g = sheet t.now width.now rwidth.now lwidth.now in let es = ends.now in (base.new ≡ lines_over (base_of g) es base.old) × (ruby.new ≡ lines_over (ruby_of g) es ruby.old) × (left.new ≡ lines_over (left_of g) es left.old) }
{
    let mut s: usize = 0;
    for end in ends {
        let e = *end as usize;
        let line = Span { first: s, upto: e };
        put_line(t, line, width, rwidth, lwidth, base, ruby, left);
        s = e;
    }
}

/// The ends of n lines: "for each line the count of base characters up to its end".
pub fn put_ends(n: usize, ends: &[u32], lines: &mut [u32])
    requires { (n ≤ 1024) × (n ≤ length ends.now) × (n ≤ length lines.old) }
    ensures { lines.new ≡ over (take n ends.now) lines.old }
{
    // One by one, as `text::print::put_word` and for its reason.
    for l in 0..n {
        lines[l] = ends[l];
    }
}
