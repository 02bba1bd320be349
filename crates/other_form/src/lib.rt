// A sheet in the other form (document 02, R-6: "A converter takes every form one sheet whose job is accepted to form two and back to the same bytes"), and the first line of a form two sheet that form
// one can't hold. A sound sheet has one spelling, so the other sheet is written from its lines: those that both forms have are copied. It relies on `sheet` for what a sheet says, and on `text` for
// bytes written, and on `basics` for a search.
#![tactic(auto)]

ghost use Rattle.std.specs.Prelude.{◌≡◌, cond, ◌+◌, ◌-◌, ◌≤◌, ◌<◌, eqb, length, drop};
ghost use Rattle.text.specs.Print.{Wrote};
ghost use Rattle.elements.specs.declared.SheetForm.TheVariants.{One, Two};
ghost use Rattle.sheet.specs.Sheet.{plain};
ghost use Rattle.other_form.specs.Other.{other_text, unlike, first_or, left_line};
ghost use Rattle.other_form.specs.Bytes.{past_lines, on_by, letters_on, off_by, letters_off};
ghost use Rattle.other_form.specs.Parts.{part, parts_text, cuts_of};
ghost use Rattle.other_form.specs.Ready.{LettersReady, CutsReady, PartReady, PartsReady, SheetReady, OtherReady, FaultReady};
ghost use Rattle.other_form.specs.Fault.{line_by, line_told};

// The place past n lines from a place on: "each line ended by LF".
#[tactic(auto, using(crate::specs::Steps::past_steps))]
fn lines_past(s: &[u8], from: usize, n: usize) -> usize
    requires { from ≤ length s.now }
    ensures { result ≡ past_lines n (drop from s.now) from }
{
    let mut k = n;
    for at in from..s.len() {
        if k == 0 {
            return at;
        }
        if s[at] == b'\n' {
            k -= 1;
        }
    }
    s.len()
}

// A byte of a line of `elem` after the byte `last`, in form two: the letter N goes before the LF.
#[tactic(auto, using(crate::specs::Steps::on_cases))]
fn put_on(out: &mut [u8], at: usize, last: u8, b: u8) -> usize
    requires { at + length (on_by last b) ≤ length out.old }
    ensures { Wrote out.old at (on_by last b) result out.new }
{
    if b != b'\n' {
        return text::print::put_byte(out, at, b);
    }
    if last == b'P' {
        return text::print::put_byte(out, at, b'\n');
    }
    text::print::put_word(out, at, b" N\n")
}

// "each M, G and J line ends in a letter for the left kind": N on the lines from a place on.
#[tactic(auto, using(crate::specs::Steps::on_steps))]
fn letters_on(s: &[u8], from: usize, out: &mut [u8], to: usize) -> usize
    requires { LettersReady (letters_on 10 (drop from s.now)) s.now from out.old to }
    ensures { Wrote out.old to (letters_on 10 (drop from s.now)) result out.new }
{
    let mut p = to;
    let mut last = b'\n';
    for at in from..s.len() {
        p = put_on(out, p, last, s[at]);
        last = s[at];
    }
    p
}

// A byte of a line of `elem` before the byte `next`, in form one: N goes, and the space before it.
#[tactic(auto, using(crate::specs::Steps::off_cases))]
fn put_off(out: &mut [u8], at: usize, b: u8, next: u8) -> usize
    requires { at + length (off_by b next) ≤ length out.old }
    ensures { Wrote out.old at (off_by b next) result out.new }
{
    if b == b'N' {
        return at;
    }
    if b != b' ' {
        return text::print::put_byte(out, at, b);
    }
    if next == b'N' {
        return at;
    }
    text::print::put_byte(out, at, b' ')
}

// The lines from a place on without the letter N.
#[tactic(auto, using(crate::specs::Steps::off_steps))]
fn letters_off(s: &[u8], from: usize, out: &mut [u8], to: usize) -> usize
    requires { LettersReady (letters_off (drop from s.now)) s.now from out.old to }
    ensures { Wrote out.old to (letters_off (drop from s.now)) result out.new }
{
    let mut p = to;
    for at in from..s.len() {
        p = put_off(out, p, s[at], elements::byte_at(s, at + 1));
    }
    p
}

// Places in a sheet: em and measure stand up to a, the sections `base` and `ruby` from a2 up to b, the first line of `elem` from b2 up to c.
#[derive(Clone, Copy)]
struct Cuts {
    a: usize,
    a2: usize,
    b: usize,
    b2: usize,
    c: usize,
}

// These places, where x bytes stand before `base` and y before `elem` that form one does not have.
#[tactic(auto, using(crate::specs::Parts::cut_steps))]
fn cuts_of(s: &[u8], n: sheet::Counts, x: usize, y: usize) -> Cuts
    requires { CutsReady s.now n x y }
    ensures { result ≡ cuts_of s.now n x y }
{
    let k = n.bases + n.rubies + 2;
    let a = lines_past(s, 6, 2);
    let a2 = a + x;
    let b = lines_past(s, a2, k);
    let b2 = b + y;
    let c = lines_past(s, b2, 1);
    Cuts { a, a2, b, b2, c }
}

// The bytes of a sheet from one place up to another.
#[tactic(auto, using(crate::specs::Parts::length_part))]
fn put_part(out: &mut [u8], at: usize, s: &[u8], from: usize, upto: usize) -> usize
    requires { PartReady s.now from upto out.old at }
    ensures { Wrote out.old at (part from upto s.now) result out.new }
{
    text::print::put_word(out, at, &s[from..upto])
}

// The three parts that both forms have, each behind a word: the first line, the seven numbers, the line `left`.
#[tactic(auto, using(crate::specs::Ready::part_steps), unfolding(crate::specs::Parts::parts_text))]
fn put_parts(s: &[u8], cuts: Cuts, first: &[u8], house: &[u8], left: &[u8], out: &mut [u8]) -> usize
    requires { PartsReady cuts s.now first.now house.now left.now out.old }
    ensures { Wrote out.old 0 (parts_text cuts s.now first.now house.now left.now) result out.new }
{
    let p1 = text::print::put_word(out, 0, first);
    let p2 = put_part(out, p1, s, 6, cuts.a);
    let p3 = text::print::put_word(out, p2, house);
    let p4 = put_part(out, p3, s, cuts.a2, cuts.b);
    let p5 = text::print::put_word(out, p4, left);
    put_part(out, p5, s, cuts.b2, cuts.c)
}

// A form one sheet in form two: "both ratios .. 1:2:1 and the profile .. 0", and no left reading.
fn to_two(s: &[u8], n: sheet::Counts, out: &mut [u8]) -> usize
    requires { SheetReady One s.now n out.old }
    ensures { Wrote out.old 0 (other_text s.now) result out.new }
{
    let cuts = cuts_of(s, n, 0, 0);
    let p = put_parts(
        s,
        cuts,
        b"set 9\n",
        b"1\n2\n1\n1\n2\n1\n0\n",
        b"left 0\n",
        out,
    );
    letters_on(s, cuts.c, out, p)
}

// A form two sheet that form one can hold, in form one.
fn to_one(s: &[u8], n: sheet::Counts, out: &mut [u8]) -> usize
    requires { SheetReady Two s.now n out.old }
    ensures { Wrote out.old 0 (other_text s.now) result out.new }
{
    let cuts = cuts_of(s, n, 14, 7);
    let p = put_parts(s, cuts, b"set 2\n", &s[0..0], &s[0..0], out);
    letters_off(s, cuts.c, out, p)
}

/// Writes a sound sheet in the other form; the answer is how many bytes it has. Form two begins with `set 9`.
pub fn write_other(s: &[u8], n: sheet::Counts, out: &mut [u8]) -> usize
    requires { OtherReady s.now n out.old }
    ensures { Wrote out.old 0 (other_text s.now) result out.new }
{
    if elements::byte_at(s, 4) == b'9' {
        to_one(s, n, out)
    } else {
        to_two(s, n, out)
    }
}

// What form one does not show behind em and measure: "both ratios are 1:2:1 and the profile is 0".
const PLAIN: [u32; 7] = [1, 2, 1, 1, 2, 1, 0];

// The first line of a ratio or of the profile that form one can't hold: line 4 has the first of these numbers.
#[tactic(auto, using(crate::specs::Fault::unlike_steps), unfolding(crate::specs::Fault::line_told))]
fn number_line(set: &[u32]) -> Option<u32>
    requires { length set.now ≡ 9 }
    ensures { result ≡ line_told (first_or 0 (unlike 4 (drop 2 set.now) plain)) }
{
    for i in 0..7 {
        if set[i + 2] != PLAIN[i] {
            return Some(i as u32 + 4);
        }
    }
    None
}

// The number of the line `left`.
fn left_line(n: sheet::Counts) -> u32
    requires { n.bases + n.rubies ≤ 65535 }
    ensures { result ≡ left_line n.bases n.rubies }
{
    (n.bases + n.rubies + 13) as u32
}

/// "17, a form two sheet that form one can't hold, .. place the first line at fault": its number by the tables that a sound sheet was read to, and none if form one can hold it.
#[tactic(auto, using(crate::specs::Fault::fault_steps))]
pub fn fault_line(n: sheet::Counts, set: &[u32], elem: &[u32]) -> Option<u32>
    requires { FaultReady n set.now elem.now }
    ensures { result ≡ line_told (line_by n set.now elem.now) }
{
    if let Some(line) = number_line(set) {
        return Some(line);
    }
    let end = limits::ELEMENT_LEFT_KIND + n.elements;
    if 0 < n.lefts || basics::any_but(limits::LEFT_NONE, &elem[limits::ELEMENT_LEFT_KIND..end]) {
        return Some(left_line(n));
    }
    None
}
