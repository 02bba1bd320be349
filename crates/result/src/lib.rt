// The text of what the setting program writes (document 01, "The job sheet": "writes `refused N P`, or a result"). A result is printed line by line: its extent as the filling
// found it, then element by element the characters, which the rows of the job's table tell, with their positions as the result lists have them. It relies on `text` for words
// and numbers, on `cells` and `positions` for rows and pieces, and on `job` for what the text tells.
#![tactic(auto)]

ghost use Rattle.std.specs.Prelude.{◌≡◌, ◌+◌, ◌-◌, ◌≤◌, ◌<◌, length};
ghost use Rattle.text.specs.Print.{Wrote};
ghost use Rattle.cells.specs.Cells.{stop};
ghost use Rattle.result.specs.Text.{line_one, line_two, rows, refusal_text};
ghost use Rattle.result.specs.Rows.{RowsReady};
ghost use Rattle.result.specs.ByRows.{behind, last_piece, side_rows, elements_text, rows_text};
ghost use Rattle.result.specs.Element.{Table, SideReady};
ghost use Rattle.result.specs.Line.{LineReady};
ghost use Rattle.result.specs.Lines.{TextReady};

// A word and its number, on a line.
#[tactic(auto, using(crate::specs::Rows::size_steps))]
fn put_one(out: &mut [u8], from: usize, word: &[u8], n: u32) -> usize
    requires { from + length (line_one word.now n) ≤ length out.old }
    ensures { Wrote out.old from (line_one word.now n) result out.new }
{
    let a = text::print::put_word(out, from, word);
    let b = text::print::put_byte(out, a, b' ');
    let c = text::print::put_number(out, b, n);
    text::print::put_byte(out, c, b'\n')
}

// A word and its two numbers, on a line.
#[tactic(auto, using(crate::specs::Rows::size_steps))]
fn put_two(out: &mut [u8], from: usize, word: &[u8], i: u32, p: u32) -> usize
    requires { from + length (line_two word.now i p) ≤ length out.old }
    ensures { Wrote out.old from (line_two word.now i p) result out.new }
{
    let a = text::print::put_word(out, from, word);
    let b = text::print::put_byte(out, a, b' ');
    let c = text::print::put_number(out, b, i);
    let d = text::print::put_byte(out, c, b' ');
    let e = text::print::put_number(out, d, p);
    text::print::put_byte(out, e, b'\n')
}

// A row for each of n characters from the i-th on.
#[tactic(auto, using(crate::specs::Rows::row_steps))]
fn put_rows(
    out: &mut [u8],
    from: usize,
    word: &[u8],
    i: usize,
    n: usize,
    positions: &[u32],
) -> usize
    requires { RowsReady out.old from word.now i n positions.now }
    ensures { Wrote out.old from (rows word.now positions.now i n) result out.new }
{
    let mut at = from;
    for k in i..i + n {
        at = put_two(out, at, word, k as u32, positions[k]);
    }
    at
}

// Where the element of row i goes on behind the piece there, or e where it does not.
fn behind(t: &cells::Table, i: usize, e: usize) -> usize
    requires { (i ≤ 1024) × (i < length t.now.rows) }
    ensures { result ≡ behind t.now i e }
{
    let a = t.row(i);
    if a.more { i + a.bases as usize } else { e }
}

// Where the last piece begins that the element of row i has in the line up to e. Only a J with a mono left reading has more than one.
#[tactic(auto, using(crate::specs::Element::piece_steps))]
fn last_piece(t: &cells::Table, i: usize, e: usize) -> usize
    requires { (i < e) × (Table t.now e) }
    ensures { result ≡ last_piece t.now i e }
{
    let mut z = i;
    let mut next = behind(t, i, e);
    // From piece to piece of one element: a row says where the next one begins.
    while next < e {
        z = next;
        next = behind(t, next, e);
    }
    z
}

// Where the piece from i ends in the line up to e.
fn piece_end(t: &cells::Table, i: usize, e: usize) -> usize
    requires { (i ≤ 1024) × (i < length t.now.rows) }
    ensures { result ≡ stop t.now i e }
{
    let a = t.row(i);
    e.min(i + a.bases as usize)
}

// The rows of one side of an element from i up to c, whose last piece begins at z. Of one piece without characters there are none. The sides
// differ by a letter.
fn put_side(
    t: &cells::Table,
    i: usize,
    z: usize,
    c: usize,
    side: line::Side,
    positions: &[u32],
    out: &mut [u8],
    from: usize,
) -> usize
    requires { SideReady side t.now i z c positions.now out.old from }
    ensures { Wrote out.old from (side_rows side t.now positions.now i z c) result out.new }
{
    let own = cells::share_at(t, i, side);
    if z == i && own.many == 0 {
        return from;
    }
    let r = own.first as usize;
    let n = positions::reading_upto(t, z, c, side) - r;
    match side {
        line::Side::Right => put_rows(out, from, b"r", r, n, positions),
        line::Side::Left => put_rows(out, from, b"l", r, n, positions),
    }
}

// The line from s up to e, element by element, "base before ruby", and the left rows last.
fn put_line(
    t: &cells::Table,
    s: usize,
    e: usize,
    base: &[u32],
    ruby: &[u32],
    left: &[u32],
    out: &mut [u8],
    from: usize,
) -> usize
    requires { LineReady t.now s e base.now ruby.now left.now out.old from }
    ensures { let u = t.now in Wrote out.old from (elements_text u base.now ruby.now left.now (e - s) s e) result out.new }
{
    let mut at = from;
    let mut i = s;
    // From element to element: a row says where the next one begins.
    while i < e {
        let z = last_piece(t, i, e);
        let c = piece_end(t, z, e);
        let over = put_rows(out, at, b"b", i, c - i, base);
        let beside = put_side(t, i, z, c, line::Side::Right, ruby, out, over);
        at = put_side(t, i, z, c, line::Side::Left, left, out, beside);
        i = c;
    }
    at
}

/// The result of an accepted job whose n lines end where the front of `ends` says and have the extents that the front of `extents` has; `base`, `ruby` and `left` have
/// its characters' positions, and `t` its rows. The answer is the text's length.
pub fn write_result(
    t: &cells::Table,
    n: usize,
    ends: &[u32],
    extents: &[u32],
    base: &[u32],
    ruby: &[u32],
    left: &[u32],
    out: &mut [u8],
) -> usize
    requires { TextReady t.now n ends.now extents.now base.now ruby.now left.now out.old }
    ensures { Wrote out.old 0 (rows_text t.now n ends.now extents.now base.now ruby.now left.now) result out.new }
{
    let mut at = put_one(out, 0, b"lines", n as u32);
    let mut s: usize = 0;
    for l in 0..n {
        let e = ends[l] as usize;
        let told = put_one(out, at, b"line", extents[l]);
        at = put_line(t, s, e, base, ruby, left, out, told);
        s = e;
    }
    at
}

/// A refusal, by the paper's number and place. The answer is the text's length.
#[tactic(auto, unfolding(crate::specs::Text::refusal_text))]
pub fn write_refusal(why: refusal::Refusal, out: &mut [u8]) -> usize
    requires { length (refusal_text why) ≤ length out.old }
    ensures { Wrote out.old 0 (refusal_text why) result out.new }
{
    put_two(out, 0, b"refused", why.number(), why.place())
}
