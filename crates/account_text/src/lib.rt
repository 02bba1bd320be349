// The text of an account: the verdict of the page, and for each line its extent and for each of its elements why it stands where it does, one a line. It is printed from the
// lists of `job_account::account_job`; the counts of the verdict come with them. It relies on `text` for words and numbers, and on `job_account` for what the lists hold.
#![tactic(auto)]

ghost use Rattle.std.specs.Prelude.{◌≡◌, ◌+◌, ◌*◌, ◌^◌, ◌≤◌, ◌<◌, length, cond, ◌++◌};
ghost use Rattle.text.specs.Print.{Wrote};
ghost use Rattle.word.specs.Given.{has_ruby};
ghost use Rattle.word.specs.Both.{has_left};
ghost use Rattle.door.specs.Job.{form_of, left_of};
ghost use Rattle.account_text.specs.Text.{said, deep, named, under_text, over_text, touch_text, edge_text, ruby_text, reason_text, row_at, segment, rows_text, head_text, verdict_text, lists_text, readings_of, needs_text};
ghost use Rattle.account_text.specs.Rows.{SegmentReady};
ghost use Rattle.account_text.specs.Lists.{ListsReady};

// A phrase and its number.
#[tactic(auto, using(crate::specs::Parts::put_steps), unfolding(crate::specs::Text::said))]
fn put_said(out: &mut [u8], from: usize, phrase: &[u8], n: u32) -> usize
    requires { from + length (said phrase.now n) ≤ length out.old }
    ensures { Wrote out.old from (said phrase.now n) result out.new }
{
    let a = text::print::put_word(out, from, phrase);
    text::print::put_number(out, a, n)
}

// A phrase with the other element and the depth.
#[tactic(auto, using(crate::specs::Parts::put_steps), unfolding(crate::specs::Text::deep))]
fn put_deep(out: &mut [u8], from: usize, phrase: &[u8], other: u32, depth: u32) -> usize
    requires { from + length (deep phrase.now other depth) ≤ length out.old }
    ensures { Wrote out.old from (deep phrase.now other depth) result out.new }
{
    let a = put_said(out, from, phrase, other);
    put_said(out, a, b" at depth ", depth)
}

// A phrase, and what a ruby is called.
#[tactic(auto, using(crate::specs::Parts::put_steps), unfolding(crate::specs::Text::named))]
fn put_named(out: &mut [u8], from: usize, phrase: &[u8], name: &[u8]) -> usize
    requires { from + length (named phrase.now name.now) ≤ length out.old }
    ensures { Wrote out.old from (named phrase.now name.now) result out.new }
{
    let a = text::print::put_word(out, from, phrase);
    text::print::put_word(out, a, name)
}

// Rule 2: the block, and a ruby of the element before.
#[tactic(auto, using(crate::specs::Parts::put_steps), unfolding(crate::specs::Text::under_text))]
fn put_under(out: &mut [u8], from: usize, name: &[u8], other: u32, depth: u32) -> usize
    requires { from + length (under_text name.now other depth) ≤ length out.old }
    ensures { Wrote out.old from (under_text name.now other depth) result out.new }
{
    let a = put_named(out, from, b" rule 2 block touches ", name);
    put_deep(out, a, b" of ", other, depth)
}

// Rule 2: its ruby, and the block before.
#[tactic(auto, using(crate::specs::Parts::put_steps), unfolding(crate::specs::Text::over_text))]
fn put_over(out: &mut [u8], from: usize, name: &[u8], other: u32, depth: u32) -> usize
    requires { from + length (over_text name.now other depth) ≤ length out.old }
    ensures { Wrote out.old from (over_text name.now other depth) result out.new }
{
    let a = put_named(out, from, b" rule 2 ", name);
    put_deep(out, a, b" touches block of ", other, depth)
}

// Rule 3: its ruby, and an earlier one of its side.
#[tactic(auto, using(crate::specs::Parts::put_steps), unfolding(crate::specs::Text::touch_text))]
fn put_touch(out: &mut [u8], from: usize, name: &[u8], other: u32) -> usize
    requires { from + length (touch_text name.now other) ≤ length out.old }
    ensures { Wrote out.old from (touch_text name.now other) result out.new }
{
    let a = put_named(out, from, b" rule 3 ", name);
    let b = put_named(out, a, b" touches ", name);
    put_said(out, b, b" of ", other)
}

// Rule 4: its ruby, at the line's start.
#[tactic(auto, using(crate::specs::Parts::put_steps), unfolding(crate::specs::Text::edge_text))]
fn put_edge(out: &mut [u8], from: usize, name: &[u8]) -> usize
    requires { from + length (edge_text name.now) ≤ length out.old }
    ensures { Wrote out.old from (edge_text name.now) result out.new }
{
    let a = put_named(out, from, b" rule 4 ", name);
    text::print::put_word(out, a, b" touches start")
}

// A reason that speaks of a ruby with this name, by the number of the right side's.
#[tactic(auto, using(std::proofs::lemmas::Bool::Decides::nat_tests), unfolding(crate::specs::Text::ruby_text))]
fn put_ruby(out: &mut [u8], from: usize, name: &[u8], reason: u32, other: u32, depth: u32) -> usize
    requires { from + length (ruby_text name.now reason other depth) ≤ length out.old }
    ensures { Wrote out.old from (ruby_text name.now reason other depth) result out.new }
{
    if reason == 3 {
        return put_under(out, from, name, other, depth);
    }
    if reason == 4 {
        return put_over(out, from, name, other, depth);
    }
    if reason == 5 {
        return put_touch(out, from, name, other);
    }
    put_edge(out, from, name)
}

// What holds an element, by the reason's number.
fn put_reason(out: &mut [u8], from: usize, reason: u32, other: u32, depth: u32) -> usize
    requires { from + length (reason_text reason other depth) ≤ length out.old }
    ensures { Wrote out.old from (reason_text reason other depth) result out.new }
{
    if reason == 1 {
        return text::print::put_word(out, from, b" rule 4 block touches start");
    }
    if reason == 2 {
        return put_said(out, from, b" rule 1 block touches block of ", other);
    }
    if reason <= 6 {
        return put_ruby(out, from, b"ruby", reason, other, depth);
    }
    put_ruby(out, from, b"left ruby", reason - 4, other, depth)
}

// Row q of an account on its line. Six numbers and no struct, since C lends the list (`bv_account_job`).
#[tactic(auto, using(crate::specs::Parts::put_steps), unfolding(crate::specs::Text::row_text))]
fn put_row(out: &mut [u8], from: usize, q: usize, rows: &[u32]) -> usize
    requires { (6 * q + 6 ≤ length rows.now) × (q < 4096) × (from + length (row_at rows.now q) ≤ length out.old) }
    ensures { Wrote out.old from (row_at rows.now q) result out.new }
{
    let i = 6 * q;
    let a = put_said(out, from, b"element ", rows[i]);
    let b = put_said(out, a, b" at ", rows[i + 1]);
    let c = put_said(out, b, b" gap ", rows[i + 2]);
    let d = put_reason(out, c, rows[i + 3], rows[i + 4], rows[i + 5]);
    text::print::put_byte(out, d, b'\n')
}

// The rows from q up to e.
#[tactic(auto, using(crate::specs::Rows::row_steps))]
fn put_rows(out: &mut [u8], from: usize, q: usize, e: usize, rows: &[u32]) -> usize
    requires { SegmentReady out.old from q e rows.now (rows_text (segment rows.now q e)) }
    ensures { Wrote out.old from (rows_text (segment rows.now q e)) result out.new }
{
    let mut at = from;
    for k in q..e {
        at = put_row(out, at, k, rows);
    }
    at
}

// A line's extent, and its rows.
#[tactic(auto, using(crate::specs::Parts::put_steps), unfolding(crate::specs::Text::head_text))]
fn put_line(out: &mut [u8], from: usize, extent: u32, q: usize, e: usize, rows: &[u32]) -> usize
    requires { SegmentReady out.old from q e rows.now (head_text extent ++ rows_text (segment rows.now q e)) }
    ensures { Wrote out.old from (head_text extent ++ rows_text (segment rows.now q e)) result out.new }
{
    let a = put_said(out, from, b"line ", extent);
    let b = text::print::put_byte(out, a, b'\n');
    put_rows(out, b, q, e, rows)
}

// The verdict of an accepted page.
#[tactic(auto, using(crate::specs::Parts::put_steps), unfolding(crate::specs::Text::verdict_text))]
fn put_verdict(out: &mut [u8], lines: u32, elements: u32, readings: u32) -> usize
    requires { length (verdict_text lines elements readings) ≤ length out.old }
    ensures { Wrote out.old 0 (verdict_text lines elements readings) result out.new }
{
    let a = put_said(out, 0, b"clear lines ", lines);
    let b = put_said(out, a, b" elements ", elements);
    let c = put_said(out, b, b" readings ", readings);
    text::print::put_byte(out, c, b'\n')
}

// 1 for an element of this kind that has ruby: any but a P.
fn reads(kind: u32) -> usize
    ensures { result ≡ cond (has_ruby (form_of kind)) 1 0 }
{
    (door::form_of(kind) != word::Form::P) as usize
}

// 1 for an element with a left reading of this kind, and 0 where it says that there is none.
fn reads_left(kind: u32) -> usize
    ensures { result ≡ cond (has_left (left_of kind)) 1 0 }
{
    (door::left_of(kind) != word::Left::N) as usize
}

/// How many readings n elements have on either side.
#[tactic(auto, using(crate::specs::Readings::reading_steps))]
pub fn count_readings(n: usize, kind: &[u32], lkind: &[u32]) -> usize
    requires { (n ≤ length kind.now) × (n ≤ length lkind.now) × (n ≤ 1024) }
    ensures { result ≡ readings_of kind.now lkind.now n }
{
    let mut readings = 0;
    for k in 0..n {
        readings += reads(kind[k]) + reads_left(lkind[k]);
    }
    readings
}

/// The account of a page that is clear, from its lists: n lines, as `account_job` tells them. The answer is the text's length.
pub fn write_account(
    n: usize,
    elements: usize,
    readings: usize,
    rows: &[u32],
    told: &[u32],
    extents: &[u32],
    out: &mut [u8],
) -> usize
    requires { ListsReady n elements readings rows.now told.now extents.now out.old }
    ensures { Wrote out.old 0 (lists_text n elements readings rows.now told.now extents.now) result out.new }
{
    let mut at = put_verdict(out, n as u32, elements as u32, readings as u32);
    let mut q: usize = 0;
    for l in 0..n {
        let e = told[l] as usize;
        at = put_line(out, at, extents[l], q, e, rows);
        q = e;
    }
    at
}

/// By how much a line is too long: the extent that it needs, and the measure in half units, from place `from` on.
#[tactic(auto, using(crate::specs::Parts::put_steps), unfolding(crate::specs::Text::needs_text))]
pub fn put_needs(out: &mut [u8], from: usize, needed: u32, measure: u32) -> usize
    requires { (from + length (needs_text needed measure) ≤ length out.old) × (measure < 2 ^ 31) }
    ensures { Wrote out.old from (needs_text needed measure) result out.new }
{
    let a = put_said(out, from, b"needs ", needed);
    let b = put_said(out, a, b" measure ", 2 * measure);
    text::print::put_byte(out, b, b'\n')
}
