// A section of numbers (document 01, "The job sheet"): a line with its word and its count, then as many lines of k numbers each. One function reads every such
// section; what differs is the word, k, and the greatest count. A section's numbers go to one table, column by column: field j of line i stands at j * most + i,
// so that a field of all lines is one part of the table. It relies on `text` for numbers and words and on `refusal` for what is wrong with a sheet.
#![tactic(auto)]

ghost use Rattle.std.specs.Prelude.{◌≡◌, ◌+◌, ◌<◌, ◌^◌};
ghost use Rattle.text.specs.Text.{stop_of};
ghost use Rattle.rows.specs.Table.{FieldsReady, RowsReady, SectionReady};
ghost use Rattle.rows.specs.Section.{head_of, line_of};
ghost use Rattle.rows.specs.Determined.{FieldsRead, RowsRead, SectionRead};

use refusal::Refusal;

/// How far the reading has come: the section's count, the place past what was read and the number of the line there.
#[derive(Clone, Copy, Debug, PartialEq, Eq)]
pub struct Part {
    pub count: usize,
    pub at: usize,
    pub line: u32,
}

/// The byte after what `left` more numbers follow: a space, or `last` after the last of them.
pub fn stop_of(last: u8, left: usize) -> u8
    ensures { result ≡ stop_of last left }
{
    if left == 0 { last } else { b' ' }
}

/// k numbers, the last ended by the byte `last`; the i-th goes to `to + i * step`.
#[tactic(auto, using(crate::specs::Reading::field_steps))]
pub fn fields_at(
    s: &[u8],
    from: usize,
    last: u8,
    k: usize,
    out: &mut [u32],
    to: usize,
    step: usize,
) -> Option<usize>
    requires { FieldsReady s.now from k to step out.old }
    ensures { FieldsRead last k s.now from to step out.old result out.new }
{
    let mut at = from;
    let mut p = to;
    for left in (0..k).rev() {
        let (v, next) = text::read_number(s, at, stop_of(last, left))?;
        out[p] = v;
        p += step;
        at = next;
    }
    Some(at)
}

/// The lines under a section's first line, into the columns of its table. A refused head is handed on, and the table stays as it was.
#[tactic(auto, using(crate::specs::Reading::row_steps))]
pub fn rows_at(
    s: &[u8],
    head: Result<Part, Refusal>,
    k: usize,
    most: usize,
    out: &mut [u32],
) -> Result<Part, Refusal>
    requires { RowsReady k most head out.old }
    ensures { RowsRead k most s.now head out.old result out.new }
{
    let first = head?;
    let mut at = first.at;
    let mut line = first.line;
    for i in 0..first.count {
        let Some(next) = fields_at(s, at, b'\n', k, out, i, most) else {
            return Err(Refusal::Form(line));
        };
        at = next;
        line += 1;
    }
    Ok(Part { at, line, ..first })
}

/// The line that begins a section, after the part before: its word, its count and LF. "Within a line form comes before count." A refusal before it is handed on.
#[tactic(auto, using(std::proofs::lemmas::Bool::Decides::nat_tests), unfolding(crate::specs::Section::head_of, crate::specs::Section::on_part, crate::specs::Section::on_place, crate::specs::Section::on_number))]
pub fn head_at(
    s: &[u8],
    last: Result<Part, Refusal>,
    w: &[u8],
    most: u32,
    which: u32,
) -> Result<Part, Refusal>
    requires { line_of last + 1 < 2 ^ 32 }
    ensures { result ≡ head_of w.now most which s.now last }
{
    let before = last?;
    let broken = Refusal::Form(before.line);
    let p = text::read_word(s, before.at, w).ok_or(broken)?;
    let (count, at) = text::read_number(s, p, b'\n').ok_or(broken)?;
    if most < count {
        return Err(Refusal::Count(which));
    }
    Ok(Part {
        count: count as usize,
        at,
        line: before.line + 1,
    })
}

/// A section of lines of k numbers, after the part before. A refusal before it is handed on.
#[tactic(auto, using(crate::specs::Reading::head_ready))]
pub fn section_at(
    s: &[u8],
    last: Result<Part, Refusal>,
    w: &[u8],
    k: usize,
    most: u32,
    which: u32,
    out: &mut [u32],
) -> Result<Part, Refusal>
    requires { SectionReady k most last out.old }
    ensures { SectionRead w.now k most which s.now last out.old result out.new }
{
    rows_at(s, head_at(s, last, w, most, which), k, most as usize, out)
}
