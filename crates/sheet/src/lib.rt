// A job sheet whole, of form one (document 01, "The job sheet") or form two (document 02, R-6), told apart by the first line: its sections in their fixed order into lent tables, and how the
// reading ended. "The sheet is read top to bottom and the first fault met .. is given"; a table holds what was read before it. The tables are the same for both forms, so that those above need
// not know the form. Nothing is asked of the caller. It relies on `rows` for the sections of numbers, on `elements` for the section `elem`, on `text` for words and on `refusal`.
#![tactic(auto)]

ghost use Rattle.std.specs.Prelude.{◌≡◌};
ghost use Rattle.rows.specs.Section.{count_of};
ghost use Rattle.rows.specs.Table.{laid};
ghost use Rattle.sheet.specs.Sheet.{tables, opening, form_by, house, left_head, end_of, LineFits, Into};

use elements::{Elements, SheetForm};
use refusal::Refusal;
use rows::Part;

// The most rows of a section, as its head counts them.
const MOST_BASES: u32 = limits::MOST_BASES as u32;

const MOST_RUBIES: u32 = limits::MOST_RUBIES as u32;

const MOST_LEFTS: u32 = limits::MOST_LEFTS as u32;

const MOST_ELEMENTS: u32 = limits::MOST_ELEMENTS as u32;

/// How many base characters, ruby characters, left characters, elements, runs and left runs a sheet has.
#[derive(Clone, Copy, Debug, PartialEq, Eq)]
pub struct Counts {
    pub bases: usize,
    pub rubies: usize,
    pub lefts: usize,
    pub elements: usize,
    pub runs: usize,
    pub lruns: usize,
}

// "Over-length comes before both"; then the fixed text `set 2`, or "Form two begins with `set 9`".
#[tactic(auto, using(std::proofs::lemmas::Bool::Decides::nat_tests), unfolding(crate::specs::Sheet::opening, crate::specs::Sheet::set_word, rows::specs::Section::on_place))]
fn opening_of(s: &[u8]) -> Result<Part, Refusal>
    ensures { result ≡ opening s.now }
{
    if limits::SHEET < s.len() {
        return Err(Refusal::Form(0));
    }
    if let Some(at) = text::read_word(s, 0, b"set 2\n") {
        return Ok(Part {
            count: 2,
            at,
            line: 2,
        });
    }
    let at = text::read_word(s, 0, b"set 9\n").ok_or(Refusal::Form(1))?;
    Ok(Part {
        count: 9,
        at,
        line: 2,
    })
}

fn count_of(p: Result<Part, Refusal>) -> usize
    ensures { result ≡ count_of p }
{
    match p {
        Ok(part) => part.count,
        Err(_) => 0,
    }
}

// The form that the first line tells.
#[tactic(auto, using(std::proofs::lemmas::Bool::Decides::nat_tests), unfolding(crate::specs::Sheet::form_by))]
fn form_of(set: Result<Part, Refusal>) -> SheetForm
    ensures { result ≡ form_by set }
{
    if count_of(set) == 9 {
        SheetForm::Two
    } else {
        SheetForm::One
    }
}

// What form one does not show behind em and measure: both ratios 1:2:1, and profile 0.
#[tactic(auto, using(std::proofs::lemmas::Bool::Decides::nat_tests), unfolding(crate::specs::Sheet::house, rows::specs::Table::laid, rows::specs::Table::strided))]
fn put_house(set: Result<Part, Refusal>, numbers: &mut [u32; limits::SET])
    ensures { numbers.new ≡ laid numbers.old 2 9 (house set) }
{
    if count_of(set) == 2 {
        numbers[2] = 1;
        numbers[3] = 2;
        numbers[4] = 1;
        numbers[5] = 1;
        numbers[6] = 2;
        numbers[7] = 1;
        numbers[8] = 0;
    }
}

// The first line of the section `left`; form one has none, and no left characters.
#[tactic(auto, using(std::proofs::lemmas::Bool::Decides::nat_tests), unfolding(crate::specs::Sheet::left_head, rows::specs::Section::on_part))]
fn left_head(s: &[u8], form: SheetForm, last: Result<Part, Refusal>) -> Result<Part, Refusal>
    requires { LineFits last }
    ensures { result ≡ left_head form s.now last }
{
    match form {
        SheetForm::Two => rows::head_at(s, last, b"left ", MOST_LEFTS, 3),
        SheetForm::One => Ok(Part { count: 0, ..last? }),
    }
}

// "Nothing after": the last line's LF is the last byte.
#[tactic(auto, using(std::proofs::lemmas::Bool::Decides::nat_tests), unfolding(crate::specs::Sheet::end_of))]
fn ending(
    s: &[u8],
    base: Result<Part, Refusal>,
    ruby: Result<Part, Refusal>,
    left: Result<Part, Refusal>,
    elem: Result<Elements, Refusal>,
) -> Result<Counts, Refusal>
    ensures { result ≡ end_of s.now base ruby left elem }
{
    let listed = elem?;
    if listed.at != s.len() {
        return Err(Refusal::Form(listed.line));
    }
    Ok(Counts {
        bases: count_of(base),
        rubies: count_of(ruby),
        lefts: count_of(left),
        elements: listed.count,
        runs: listed.runs,
        lruns: listed.lruns,
    })
}

/// Reads a job sheet. `set` gets em, measure, the three numbers of the ruby ratio, the three of the base ratio, and the profile; of form one 1, 2, 1, 1, 2, 1, 0 behind em and measure. A table holds
/// its section column by column: class, width, blank before, blank after and flag of base character i stand at i, 1024 + i, .., 4096 + i of `base`; class and width of ruby character i at i and
/// 2048 + i of `ruby`, of left character i so of `left`; kind (its letter's byte), base count, ruby count, left kind (N, 78, where there is none) and left count of element i at i, 1024 + i, ..,
/// 4096 + i of `elem`. `runs` holds the runs of all J elements in order, `lruns` the left runs.
pub fn read_sheet(
    s: &[u8],
    set: &mut [u32; limits::SET],
    base: &mut [u32; limits::BASE_TABLE],
    ruby: &mut [u32; limits::RUBY_TABLE],
    left: &mut [u32; limits::LEFT_TABLE],
    elem: &mut [u32; limits::ELEMENT_TABLE],
    runs: &mut [u32; limits::RUNS],
    lruns: &mut [u32; limits::RUNS],
) -> Result<Counts, Refusal>
    ensures { Into s.now (tables set.old base.old ruby.old left.old elem.old runs.old lruns.old) result (tables set.new base.new ruby.new left.new elem.new runs.new lruns.new) }
{
    let o = opening_of(s);
    let form = form_of(o);
    let a = rows::rows_at(s, o, 1, limits::SET, set);
    put_house(a, set);
    let b = rows::section_at(s, a, b"base ", 5, MOST_BASES, 0, base);
    let c = rows::section_at(s, b, b"ruby ", 2, MOST_RUBIES, 1, ruby);
    let g = left_head(s, form, c);
    let l = rows::rows_at(s, g, 2, limits::MOST_LEFTS, left);
    let h = rows::head_at(s, l, b"elem ", MOST_ELEMENTS, 2);
    let d = elements::elements_at(s, form, h, elem, runs, lruns);
    ending(s, b, c, l, d)
}
