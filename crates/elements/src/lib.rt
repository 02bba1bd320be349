// The section `elem` (document 01, "The job sheet"; form two: document 02, R-6): its lines to a table of kinds and counts, column by column as `rows` has them; the runs of all J elements, one
// after the other, to a table of their own, and the left runs to another. What a line does not show stands as 0, and a left kind as N. It relies on `text` for numbers and words, on `rows` for
// the line that begins the section and for numbers stored, and on `refusal`.
#![tactic(auto)]

ghost use Rattle.std.specs.Prelude.{◌≡◌};
ghost use Rattle.std.proofs.lemmas.List.Edits.{sets};
ghost use Rattle.rows.specs.Table.{strided};
ghost use Rattle.elements.specs.Element.{bare, plain_at, mono_at, group_at, jukugo_at, right_at, byte_at, is_counted, is_listed, counts_of, counted_at, listed_at, left_at, stop_by, word_at, element, row_of};
ghost use Rattle.elements.specs.Elements.{lines, elements};
ghost use Rattle.elements.specs.Determined.{LineRead, ListRead};
ghost use Rattle.elements.specs.Ready.{RunsReady, LineReady, PutReady, LinesReady, ElementsReady};

use refusal::Refusal;

/// The two forms of a sheet. In form two "each M, G and J line ends in a letter for the left kind (M, G, J; N for none) and its counts".
#[derive(Clone, Copy, Debug, PartialEq, Eq)]
pub enum SheetForm {
    One,
    Two,
}

/// An element as its line has it: the kind's letter, its base and ruby counts, and how many runs its line holds; the left kind's letter, the left count, and how many left runs.
#[derive(Clone, Copy, Debug, PartialEq, Eq)]
pub struct Element {
    pub kind: u32,
    pub base: u32,
    pub ruby: u32,
    pub runs: usize,
    pub left: u32,
    pub count: u32,
    pub lruns: usize,
}

/// How far the reading has come: the counts of elements, runs and left runs, the place past them and the number of the line there.
#[derive(Clone, Copy, Debug, PartialEq, Eq)]
pub struct Elements {
    pub count: usize,
    pub runs: usize,
    pub lruns: usize,
    pub at: usize,
    pub line: u32,
}

// An element without a left kind.
fn bare(kind: u32, base: u32, ruby: u32, runs: usize) -> Element
    ensures { result ≡ bare kind base ruby runs }
{
    Element {
        kind,
        base,
        ruby,
        runs,
        left: limits::LEFT_NONE,
        count: 0,
        lruns: 0,
    }
}

// A line of the section, or its part without the left kind, is told by its element and the place past it. Here `P`.
#[tactic(auto, using(std::proofs::lemmas::Bool::Decides::nat_tests), unfolding(crate::specs::Element::plain_at, rows::specs::Section::on_place))]
fn plain_at(s: &[u8], at: usize) -> Option<(Element, usize)>
    ensures { result ≡ plain_at s.now at }
{
    let next = text::read_word(s, at, b"P\n")?;
    Some((bare(limits::PLAIN, 0, 0, 0), next))
}

// `M r`, ended by the byte `stop`.
#[tactic(auto, using(std::proofs::lemmas::Bool::Decides::nat_tests), unfolding(crate::specs::Element::mono_at, rows::specs::Section::on_place, rows::specs::Section::on_number))]
fn mono_at(s: &[u8], at: usize, stop: u8) -> Option<(Element, usize)>
    ensures { result ≡ mono_at stop s.now at }
{
    let p = text::read_word(s, at, b"M ")?;
    let (r, next) = text::read_number(s, p, stop)?;
    Some((bare(limits::MONO, 0, r, 0), next))
}

// `G b r`, ended by the byte `stop`.
#[tactic(auto, using(std::proofs::lemmas::Bool::Decides::nat_tests), unfolding(crate::specs::Element::group_at, rows::specs::Section::on_place, rows::specs::Section::on_number))]
fn group_at(s: &[u8], at: usize, stop: u8) -> Option<(Element, usize)>
    ensures { result ≡ group_at stop s.now at }
{
    let p = text::read_word(s, at, b"G ")?;
    let (b, q) = text::read_number(s, p, b' ')?;
    let (r, next) = text::read_number(s, q, stop)?;
    Some((bare(limits::GROUP, b, r, 0), next))
}

// `J b` and b run lengths, b from 1 to 32, the last ended by the byte `stop`; they go to `runs` from `used` on.
#[tactic(auto, using(crate::specs::Steps::jukugo_steps), unfolding(crate::specs::Element::jukugo_at, rows::specs::Section::on_place, rows::specs::Section::on_number))]
fn jukugo_at(
    s: &[u8],
    at: usize,
    stop: u8,
    runs: &mut [u32],
    used: usize,
) -> Option<(Element, usize)>
    requires { RunsReady s.now at used runs.old }
    ensures { (result ≡ (jukugo_at stop s.now at).line) × (runs.new ≡ sets runs.old used (jukugo_at stop s.now at).runs) }
{
    let p = text::read_word(s, at, b"J ")?;
    let (b, q) = text::read_number(s, p, b' ')?;
    if b < 1 || limits::ELEMENT_BASES < b {
        return None;
    }
    let n = b as usize;
    let next = rows::fields_at(s, q, stop, n, runs, used, 1)?;
    Some((bare(limits::JUKUGO, b, 0, n), next))
}

// What an M, G or J line shows in both forms, ended by the byte `stop`; a J's runs go to `runs` from `used` on.
#[tactic(auto, using(std::proofs::lemmas::Bool::Decides::nat_tests), unfolding(crate::specs::Element::right_at, crate::specs::Element::or_runs))]
fn right_at(
    s: &[u8],
    at: usize,
    stop: u8,
    runs: &mut [u32],
    used: usize,
) -> Option<(Element, usize)>
    requires { RunsReady s.now at used runs.old }
    ensures { (result ≡ (right_at stop s.now at).line) × (runs.new ≡ sets runs.old used (right_at stop s.now at).runs) }
{
    let found = mono_at(s, at, stop).or(group_at(s, at, stop));
    if found.is_some() {
        return found;
    }
    jukugo_at(s, at, stop, runs, used)
}

/// The byte at a place, 0 past the end.
pub fn byte_at(s: &[u8], at: usize) -> u8
    ensures { result ≡ byte_at s.now at }
{
    if s.len() <= at { 0 } else { s[at] }
}

// Whether the left kind's one count is the element's left count: G's, and M's on M.
fn is_counted(kind: u32, letter: u8) -> bool
    ensures { result ≡ is_counted kind letter }
{
    letter == b'G' || (letter == b'M' && kind == limits::MONO)
}

// Whether its counts are left runs: those of M and J elsewhere; N has none.
fn is_listed(letter: u8) -> bool
    ensures { result ≡ is_listed letter }
{
    matches!(letter, b'N' | b'M' | b'J')
}

// How many counts follow the letter then: none after N, else one for each base character of the element.
fn counts_of(kind: u32, base: u32, letter: u8) -> usize
    ensures { result ≡ counts_of kind base letter }
{
    match letter {
        b'N' => 0,
        _ if kind == limits::MONO => 1,
        _ => base as usize,
    }
}

// The left kind and its one count, the element's left count.
#[tactic(auto, using(std::proofs::lemmas::Bool::Decides::nat_tests), unfolding(crate::specs::Element::counted_at, rows::specs::Section::on_place, rows::specs::Section::on_number))]
fn counted_at(s: &[u8], e: Element, at: usize, letter: u8) -> Option<(Element, usize)>
    ensures { result ≡ counted_at letter e s.now at }
{
    let p = text::read_word(s, at, &[letter, b' '])?;
    let (count, next) = text::read_number(s, p, b'\n')?;
    let left = letter as u32;
    Some((
        Element {
            left,
            count,
            lruns: 0,
            ..e
        },
        next,
    ))
}

// The left kind and its counts, which go to `lruns` from `used` on.
#[tactic(auto, using(crate::specs::Steps::listed_steps), unfolding(crate::specs::Element::listed_at, rows::specs::Section::on_place))]
fn listed_at(
    s: &[u8],
    e: Element,
    at: usize,
    letter: u8,
    lruns: &mut [u32],
    used: usize,
) -> Option<(Element, usize)>
    requires { RunsReady s.now at used lruns.old }
    ensures { (result ≡ (listed_at letter e s.now at).line) × (lruns.new ≡ sets lruns.old used (listed_at letter e s.now at).runs) }
{
    let n = counts_of(e.kind, e.base, letter);
    let p = text::read_word(s, at, &[letter, rows::stop_of(b'\n', n)])?;
    let next = rows::fields_at(s, p, b'\n', n, lruns, used, 1)?;
    let left = letter as u32;
    Some((
        Element {
            left,
            count: 0,
            lruns: n,
            ..e
        },
        next,
    ))
}

// The end of a line of form two: the letter of the left kind and its counts, after what was read as e.
#[tactic(auto, using(crate::specs::Steps::left_steps))]
fn left_at(
    s: &[u8],
    e: Element,
    at: usize,
    lruns: &mut [u32],
    used: usize,
) -> Option<(Element, usize)>
    requires { RunsReady s.now at used lruns.old }
    ensures { (result ≡ (left_at e s.now at).line) × (lruns.new ≡ sets lruns.old used (left_at e s.now at).runs) }
{
    let letter = byte_at(s, at);
    if is_counted(e.kind, letter) {
        return counted_at(s, e, at, letter);
    }
    if is_listed(letter) {
        return listed_at(s, e, at, letter, lruns, used);
    }
    None
}

// The byte after what both forms show: LF in form one, in form two a space, and the left kind follows.
#[tactic(auto, using(std::proofs::lemmas::Bool::Decides::nat_tests), unfolding(crate::specs::Element::stop_by))]
fn stop_by(form: SheetForm) -> u8
    ensures { result ≡ stop_by form }
{
    match form {
        SheetForm::One => b'\n',
        SheetForm::Two => b' ',
    }
}

// An M, G or J line whole; runs go to `runs` from `used` on, left runs to `lruns` from `lused` on.
#[tactic(auto, using(crate::specs::Steps::word_steps))]
fn word_at(
    s: &[u8],
    form: SheetForm,
    at: usize,
    runs: &mut [u32],
    used: usize,
    lruns: &mut [u32],
    lused: usize,
) -> Option<(Element, usize)>
    requires { LineReady s.now at used lused runs.old lruns.old }
    ensures { LineRead (word_at form s.now at) used lused runs.old lruns.old result runs.new lruns.new }
{
    let (e, next) = right_at(s, at, stop_by(form), runs, used)?;
    match form {
        SheetForm::One => Some((e, next)),
        SheetForm::Two => left_at(s, e, next, lruns, lused),
    }
}

// A line of the section.
#[tactic(auto, using(std::proofs::lemmas::Bool::Decides::nat_tests), unfolding(crate::specs::Element::element, crate::specs::Element::or_word))]
fn element_at(
    s: &[u8],
    form: SheetForm,
    at: usize,
    runs: &mut [u32],
    used: usize,
    lruns: &mut [u32],
    lused: usize,
) -> Option<(Element, usize)>
    requires { LineReady s.now at used lused runs.old lruns.old }
    ensures { LineRead (element form s.now at) used lused runs.old lruns.old result runs.new lruns.new }
{
    let found = plain_at(s, at);
    if found.is_some() {
        return found;
    }
    word_at(s, form, at, runs, used, lruns, lused)
}

// The five numbers of element i into the columns of the table.
#[tactic(auto, using(std::proofs::lemmas::Grind::common_steps), unfolding(rows::specs::Table::strided))]
fn put_element(e: Element, i: usize, table: &mut [u32])
    requires { PutReady i table.old }
    ensures { table.new ≡ strided table.old i 1024 (row_of e) }
{
    let base = i + limits::MOST_ELEMENTS;
    let ruby = base + limits::MOST_ELEMENTS;
    let left = ruby + limits::MOST_ELEMENTS;
    let count = left + limits::MOST_ELEMENTS;
    table[i] = e.kind;
    table[base] = e.base;
    table[ruby] = e.ruby;
    table[left] = e.left;
    table[count] = e.count;
}

// n lines of the section, of which the first has the number `first`.
#[tactic(auto, using(crate::specs::Reading::line_steps))]
fn lines_at(
    s: &[u8],
    form: SheetForm,
    n: usize,
    from: usize,
    first: u32,
    table: &mut [u32],
    runs: &mut [u32],
    lruns: &mut [u32],
) -> Result<Elements, Refusal>
    requires { LinesReady s.now n first table.old runs.old lruns.old }
    ensures { ListRead (lines form n n s.now from first 0 0) table.old runs.old lruns.old result table.new runs.new lruns.new }
{
    let mut at = from;
    let mut line = first;
    let mut used: usize = 0;
    let mut lused: usize = 0;
    for i in 0..n {
        let (e, next) = element_at(s, form, at, runs, used, lruns, lused).ok_or(Refusal::Form(
            line,
        ))?;
        put_element(e, i, table);
        at = next;
        line += 1;
        used += e.runs;
        lused += e.lruns;
    }
    Ok(Elements {
        count: n,
        runs: used,
        lruns: lused,
        at,
        line,
    })
}

/// The lines under the section's first line. A table holds a field of all elements 1,024 past the one before: kind, base count, ruby count, left kind, left count. A refused head is handed
/// on, and the tables stay as they were.
#[tactic(auto, using(crate::specs::Reading::element_steps))]
pub fn elements_at(
    s: &[u8],
    form: SheetForm,
    head: Result<rows::Part, Refusal>,
    table: &mut [u32],
    runs: &mut [u32],
    lruns: &mut [u32],
) -> Result<Elements, Refusal>
    requires { ElementsReady s.now head table.old runs.old lruns.old }
    ensures { ListRead (elements form s.now head) table.old runs.old lruns.old result table.new runs.new lruns.new }
{
    let first = head?;
    lines_at(
        s,
        form,
        first.count,
        first.at,
        first.line,
        table,
        runs,
        lruns,
    )
}
