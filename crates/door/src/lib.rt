// The door (document 01, "The job" and "Refusal list"; document 02, R-5): numbers 1, 15, 20, 2 and 12, then the characters (3, 4), before any element is looked at; and of an element
// what `layout` asks for as it goes over them: its counts, right and left (5), whether it takes its left reading (16), whether its characters are there (6), and what is left over.
// It relies on `word` for the forms, on `class` for the class table, on `refusal` and on `basics`.
#![tactic(auto)]

ghost use Rattle.std.specs.Prelude.{◌≡◌, not, ◌&&◌, ◌||◌, [], ◌++◌, ◌+◌, ◌%◌, ◌^◌, ◌≤◌, ◌<◌, min, ltb, eqb, length, get_or};
ghost use Rattle.basics.specs.Lists.{each, count};
ghost use Rattle.spread.specs.Ratio.{ratio_of, ratios_of};
ghost use Rattle.class.specs.Class.{accepted, blank_before, blank_after};
ghost use Rattle.word.specs.Both.{takes};
ghost use Rattle.door.specs.Job as jobs;
ghost use Rattle.door.specs.Job.{element_count, known, known_left, form_of, left_of, left_by_runs, left_by_count, takes_runs, takes_left_runs};
ghost use Rattle.door.specs.Lent.{job_in};
ghost use Rattle.door.specs.Refusals.{outside, ratio_wrong, ◌when◌, base_faults, reading_faults};
ghost use Rattle.refusal.specs.declared.Refusal.TheVariants.{Character};
ghost use Rattle.door.specs.Verdict.{verdict, unless_refused};
ghost use Rattle.door.specs.Whole.{ahead};
ghost use Rattle.door.specs.Values.{house_rows, size_rows, sizes_of, settings, character_rows, character_wrong, base_rows, runs_from, BasesHold, ReadingHolds, CharactersHold};
ghost use Rattle.word.specs.declared.Form.TheVariants as form;
ghost use Rattle.door.specs.Elements.{alone, with_left, right_as, right_by, glossed_by, counted_by};

use refusal::Refusal;

/// A job's base characters, a list for each field.
#[derive(Clone, Copy)]
pub struct Bases<'a> {
    pub class: &'a [u32],
    pub width: &'a [u32],
    pub before: &'a [u32],
    pub after: &'a [u32],
    pub flag: &'a [u32],
}

/// The characters of the readings on one side.
#[derive(Clone, Copy)]
pub struct Readings<'a> {
    pub class: &'a [u32],
    pub width: &'a [u32],
}

/// A job's elements: the letter of each kind, how many base and ruby characters it says, and the same of its left reading.
#[derive(Clone, Copy)]
pub struct Elements<'a> {
    pub kind: &'a [u32],
    pub bases: &'a [u32],
    pub rubies: &'a [u32],
    pub left_kind: &'a [u32],
    pub lefts: &'a [u32],
}

/// A job in lists, as the entry point is lent it: em and measure in units, the house ratios, the ruby's first, each a, m, c, and the profile; its characters and elements; the runs of
/// its Js and of its left readings.
#[derive(Clone, Copy)]
pub struct Job<'a> {
    pub em: u32,
    pub measure: u32,
    pub ratios: [[u32; 3]; 2],
    pub profile: u32,
    pub base: Bases<'a>,
    pub ruby: Readings<'a>,
    pub left: Readings<'a>,
    pub elements: Elements<'a>,
    pub runs: &'a [u32],
    pub left_runs: &'a [u32],
}

/// How many base characters, ruby characters, elements and left characters a job has.
#[derive(Clone, Copy)]
pub struct Sizes {
    pub bases: usize,
    pub rubies: usize,
    pub elements: usize,
    pub lefts: usize,
}

/// How long its result lists are, of positions and of lines.
#[derive(Clone, Copy)]
pub struct Lengths {
    pub base: usize,
    pub ruby: usize,
    pub left: usize,
    pub lines: usize,
}

/// What the elements before one have taken: base characters, ruby characters and runs, left characters and their runs.
// How far runs may have come is asked by those who read runs, and no invariant: it would ask it of those who do not.
#[derive(Clone, Copy)]
pub struct Taken {
    pub base: usize,
    pub ruby: usize,
    pub run: usize,
    pub left: usize,
    pub leftrun: usize,
}

/// An element, or the part of a J that stands in one line: its first base and ruby character in the job, how many it has of each, and the first of its runs; its left reading,
/// with its first character, how many it has, and the first of its runs. `more`: its element goes on behind it though it is a piece of its own, as no element of the door is.
#[derive(Clone, Copy)]
pub struct Piece {
    pub form: word::Form,
    pub base: usize,
    pub bases: usize,
    pub ruby: usize,
    pub rubies: usize,
    pub run: usize,
    pub gloss: word::Left,
    pub left: usize,
    pub lefts: usize,
    pub leftrun: usize,
    pub more: bool,
}

// n lies outside a to b.
fn is_outside(a: u32, b: u32, n: u32) -> bool
    ensures { result ≡ outside a b n }
{
    !(a..=b).contains(&n)
}

// Number 1 of em.
fn em_wrong(em: u32) -> bool
    ensures { result ≡ (eqb (em % 2) 1 || outside 2 4096 em) }
{
    em % 2 == 1 || is_outside(2, limits::MOST_EM, em)
}

// Number 12: some result list is below its count.
fn too_short(sizes: Sizes, lengths: Lengths) -> bool
    ensures { result ≡ (ltb lengths.base sizes.bases || (ltb lengths.lines sizes.bases || (ltb lengths.ruby sizes.rubies || ltb lengths.left sizes.lefts))) }
{
    lengths.base < sizes.bases
        || lengths.lines < sizes.bases
        || lengths.ruby < sizes.rubies
        || lengths.left < sizes.lefts
}

// Number 15 of one ratio.
fn ratio_wrong(r: [u32; 3]) -> bool
    ensures { result ≡ ratio_wrong (ratio_of r) }
{
    let [a, m, c] = r;
    limits::MOST_RATIO < a
        || limits::MOST_RATIO < m
        || limits::MOST_RATIO < c
        || (a == 0 && m == 0 && c == 0)
}

// Numbers 1, 15 and 20.
fn check_house(em: u32, measure: u32, ratios: [[u32; 3]; 2], profile: u32) -> Result<(), Refusal>
    ensures { result ≡ verdict (house_rows em measure (ratios_of ratios) profile) }
{
    if em_wrong(em) {
        return Err(Refusal::Range(0));
    }
    if is_outside(1, limits::MOST_MEASURE, measure) {
        return Err(Refusal::Range(1));
    }
    if ratio_wrong(ratios[0]) {
        return Err(Refusal::Ratio(0));
    }
    if ratio_wrong(ratios[1]) {
        return Err(Refusal::Ratio(1));
    }
    if limits::MOST_PROFILE < profile {
        return Err(Refusal::Profile);
    }
    Ok(())
}

// Numbers 2 and 12.
fn check_sizes(sizes: Sizes, lengths: Lengths) -> Result<(), Refusal>
    ensures { result ≡ verdict (size_rows sizes lengths) }
{
    if limits::MOST_BASES < sizes.bases {
        return Err(Refusal::Count(0));
    }
    if limits::MOST_RUBIES < sizes.rubies {
        return Err(Refusal::Count(1));
    }
    if limits::MOST_ELEMENTS < sizes.elements {
        return Err(Refusal::Count(2));
    }
    if limits::MOST_LEFTS < sizes.lefts {
        return Err(Refusal::Count(3));
    }
    if too_short(sizes, lengths) {
        return Err(Refusal::Short);
    }
    Ok(())
}

// Number 3 of one character; a ruby character has the flag 0.
fn character_wrong(class: u32, width: u32, flag: u32) -> bool
    ensures { result ≡ character_wrong class width flag }
{
    !class::is_accepted(class) || is_outside(1, limits::MOST_WIDTH, width) || 1 < flag
}

// Number 4: a field that the class may not have, or blanks that together exceed the width. Most characters have none.
fn blanks_wrong(class: u32, width: u32, before: u32, after: u32) -> bool
    ensures { result ≡ ((ltb 0 before && not (blank_before class)) || ((ltb 0 after && not (blank_after class)) || ltb width (before + after))) }
{
    if before == 0 && after == 0 {
        return false;
    }
    stray(before, class::may_have_before(class))
        || stray(after, class::may_have_after(class))
        || (width as u64) < before as u64 + after as u64
}

// A blank where the class has none.
fn stray(blank: u32, may: bool) -> bool
    ensures { result ≡ (ltb 0 blank && not may) }
{
    0 < blank && !may
}

// Numbers 3 and 4 of one base character.
fn check_character(
    place: u32,
    class: u32,
    width: u32,
    before: u32,
    after: u32,
    flag: u32,
) -> Result<(), Refusal>
    ensures { result ≡ verdict (base_rows place class width before after flag) }
{
    if character_wrong(class, width, flag) {
        return Err(Refusal::Character(place));
    }
    if blanks_wrong(class, width, before, after) {
        return Err(Refusal::Blanks(place));
    }
    Ok(())
}

// Number 3 of one character of a reading, of either side.
fn check_reading(place: u32, class: u32, width: u32) -> Result<(), Refusal>
    ensures { result ≡ verdict (Character place when (not (accepted class) || outside 1 4096 width)) }
{
    if character_wrong(class, width, 0) {
        return Err(Refusal::Character(place));
    }
    Ok(())
}

impl Readings<'_> {
    /// "Where a kind's fields come in several lists, its count is the shortest list's length."
    pub fn count(&self) -> usize
        ensures { let r = self.now in result ≡ min (length r.class.now) (length r.width.now) }
    {
        self.class.len().min(self.width.len())
    }

    // The characters of one side's readings in turn; the first has the place `first`. Never put into its caller, where each place would be counted along with its index (2 instructions a
    // character).
    #[inline(never)]
    #[tactic(auto, using(crate::specs::Verdict::verdict_turn, crate::specs::Verdict::walk_starts, crate::specs::Verdict::walk_ends))]
    fn check(&self, first: u32, n: usize) -> Result<(), Refusal>
        requires { let r = self.now in (first ≤ 3072) × ReadingHolds n r.class.now r.width.now }
        ensures { let r = self.now in result ≡ verdict (each (reading_faults first r.class.now r.width.now) (count 0 n)) }
    {
        for i in 0..n {
            check_reading(first + i as u32, self.class[i], self.width[i])?;
        }
        Ok(())
    }
}

impl Bases<'_> {
    /// How many there are: the shortest list's length.
    pub fn count(&self) -> usize
        ensures { let b = self.now in result ≡ min (length b.class.now) (min (length b.width.now) (min (length b.before.now) (min (length b.after.now) (length b.flag.now)))) }
    {
        let blanks = self.before.len().min(self.after.len().min(self.flag.len()));
        self.class.len().min(self.width.len().min(blanks))
    }
}

impl Elements<'_> {
    /// How many there are: the shortest list's length.
    pub fn count(&self) -> usize
        ensures { let e = self.now in result ≡ min (length e.kind.now) (min (length e.bases.now) (min (length e.rubies.now) (min (length e.left_kind.now) (length e.lefts.now)))) }
    {
        let counts = self
            .rubies
            .len()
            .min(self.left_kind.len().min(self.lefts.len()));
        self.kind.len().min(self.bases.len().min(counts))
    }
}

impl Job<'_> {
    /// How many of each it has.
    #[tactic(auto, unfolding(crate::specs::Job::base_count, crate::specs::Job::ruby_count, crate::specs::Job::left_count, crate::specs::Job::element_count))]
    pub fn sizes(&self) -> Sizes
        ensures { result ≡ sizes_of (job_in self.now) }
    {
        Sizes {
            bases: self.base.count(),
            rubies: self.ruby.count(),
            elements: self.elements.count(),
            lefts: self.left.count(),
        }
    }

    /// What is judged first, by counts that are handed in: numbers 1, 15 and 20, then 2 and 12.
    #[tactic(auto, using(crate::specs::Verdict::verdict_append))]
    pub fn check_settings(&self, sizes: Sizes, lengths: Lengths) -> Result<(), Refusal>
        ensures { let j = self.now in result ≡ verdict (house_rows j.em j.measure (ratios_of j.ratios) j.profile ++ size_rows sizes lengths) }
    {
        check_house(self.em, self.measure, self.ratios, self.profile)?;
        check_sizes(sizes, lengths)
    }

    // Base characters in turn.
    #[tactic(auto, using(crate::specs::Verdict::verdict_turn, crate::specs::Verdict::walk_starts, crate::specs::Verdict::walk_ends))]
    fn check_bases(&self, n: usize) -> Result<(), Refusal>
        requires { BasesHold (job_in self.now) n }
        ensures { result ≡ verdict (each (base_faults (job_in self.now)) (count 0 n)) }
    {
        let b = self.base;
        for i in 0..n {
            check_character(
                i as u32,
                b.class[i],
                b.width[i],
                b.before[i],
                b.after[i],
                b.flag[i],
            )?;
        }
        Ok(())
    }

    /// What is judged next, before any element: numbers 3 and 4 of base characters, then of ruby ones, then of left ones. Their counts, which are handed in, are within the lists and,
    /// where `check_settings` passes, within the limits.
    #[tactic(auto, using(crate::specs::Verdict::verdict_append))]
    pub fn check_characters(&self, sizes: Sizes) -> Result<(), Refusal>
        requires { CharactersHold (job_in self.now) sizes }
        ensures { result ≡ verdict (character_rows (job_in self.now) sizes) }
    {
        self.check_bases(sizes.bases)?;
        self.ruby.check(limits::FIRST_RUBY, sizes.rubies)?;
        self.left.check(limits::FIRST_LEFT, sizes.lefts)
    }

    /// What is judged before any element, by the job's own counts: the settings, the counts and the lengths of the result lists, then the characters. The counts, where nothing is
    /// refused.
    #[tactic(auto, using(crate::specs::Whole::told_ahead))]
    pub fn check(&self, lengths: Lengths) -> Result<Sizes, Refusal>
        ensures { let job = job_in self.now in result ≡ unless_refused (ahead job lengths) (sizes_of job) }
    {
        let sizes = self.sizes();
        self.check_settings(sizes, lengths)?;
        self.check_characters(sizes)?;
        Ok(sizes)
    }
}

fn is_known(kind: u32) -> bool
    ensures { result ≡ known kind }
{
    matches!(
        kind,
        limits::PLAIN | limits::MONO | limits::GROUP | limits::JUKUGO
    )
}

fn is_known_left(kind: u32) -> bool
    ensures { result ≡ known_left kind }
{
    matches!(
        kind,
        limits::LEFT_NONE | limits::MONO | limits::GROUP | limits::JUKUGO
    )
}

/// The form that a kind's letter names, P where it is not known. No `TryFrom`, since nothing fails, and no `From`, since a letter means this in a job's lists alone.
pub fn form_of(kind: u32) -> word::Form
    ensures { result ≡ form_of kind }
{
    match kind {
        limits::MONO => word::Form::M,
        limits::GROUP => word::Form::G,
        limits::JUKUGO => word::Form::J,
        _ => word::Form::P,
    }
}

/// The left kind that a letter names, none where it is not known. Beside `form_of`: one function for both would need a trait to tell four lines from four.
pub fn left_of(kind: u32) -> word::Left
    ensures { result ≡ left_of kind }
{
    match kind {
        limits::MONO => word::Left::M,
        limits::GROUP => word::Left::G,
        limits::JUKUGO => word::Left::J,
        _ => word::Left::N,
    }
}

// "A J run past the end of its list reads as 0."
fn run_at(i: usize, runs: &[u32]) -> u32
    ensures { result ≡ get_or runs.now i 0 }
{
    runs.get(i).copied().unwrap_or(0)
}

// How many characters the n runs of a J, or of a left reading, take from the u-th on; nothing where one of them is 0 or they take more than 64.
fn runs_from(u: usize, n: usize, runs: &[u32]) -> Option<usize>
    requires { (u ≤ 1024) × (n ≤ 32) }
    ensures { result ≡ runs_from runs.now u n }
{
    let mut taken: usize = 0;
    for j in 0..n {
        let run = run_at(u + j, runs);
        if run == 0 {
            return None;
        }
        taken += run as usize;
    }
    if (limits::ELEMENT_RUBIES as usize) < taken {
        return None;
    }
    Some(taken)
}

// An element without a left reading, behind what those before it have taken, whose counts are the places where it begins.
fn piece_of(form: word::Form, bases: usize, rubies: usize, at: Taken) -> Piece
    ensures { result ≡ alone form bases rubies at }
{
    Piece {
        form,
        base: at.base,
        bases,
        ruby: at.ruby,
        rubies,
        run: at.run,
        gloss: word::Left::N,
        left: at.left,
        lefts: 0,
        leftrun: at.leftrun,
        more: false,
    }
}

/// Number 5 of an M.
pub fn count_mono(ruby: u32, at: Taken) -> Option<Piece>
    ensures { result ≡ right_as form.M 1 ruby [] at }
{
    if is_outside(1, limits::ELEMENT_RUBIES, ruby) {
        return None;
    }
    Some(piece_of(word::Form::M, 1, ruby as usize, at))
}

// The same of a G, and below of a J.
fn count_group(base: u32, ruby: u32, at: Taken) -> Option<Piece>
    ensures { result ≡ right_as form.G base ruby [] at }
{
    if is_outside(1, limits::ELEMENT_BASES, base) {
        return None;
    }
    if is_outside(1, limits::ELEMENT_RUBIES, ruby) {
        return None;
    }
    Some(piece_of(word::Form::G, base as usize, ruby as usize, at))
}

fn count_jukugo(base: u32, at: Taken, runs: &[u32]) -> Option<Piece>
    requires { at.run ≤ 1024 }
    ensures { result ≡ right_as form.J base 0 runs.now at }
{
    if is_outside(1, limits::ELEMENT_BASES, base) {
        return None;
    }
    let taken = runs_from(at.run, base as usize, runs)?;
    Some(piece_of(word::Form::J, base as usize, taken, at))
}

/// Number 5 but for a left reading: an element by its kind and counts, behind what those before it have taken; `None` where the kind is not known or a count is out of range. Counts
/// that its kind does not show are not read.
#[tactic(auto, unfolding(crate::specs::Elements::right_by))]
pub fn count_right(kind: u32, base: u32, ruby: u32, at: Taken, runs: &[u32]) -> Option<Piece>
    requires { at.run ≤ 1024 }
    ensures { result ≡ right_by kind base ruby runs.now at }
{
    if !is_known(kind) {
        return None;
    }
    match form_of(kind) {
        word::Form::P => Some(piece_of(word::Form::P, 1, 0, at)),
        word::Form::M => count_mono(ruby, at),
        word::Form::G => count_group(base, ruby, at),
        word::Form::J => count_jukugo(base, at, runs),
    }
}

// A left reading has a run for each base character of its element, or one count; nothing is read of N, nor on a P.
fn left_by_runs(form: word::Form, gloss: word::Left) -> bool
    ensures { result ≡ left_by_runs form gloss }
{
    match gloss {
        word::Left::N | word::Left::G => false,
        word::Left::M => matches!(form, word::Form::G | word::Form::J),
        word::Left::J => !matches!(form, word::Form::P),
    }
}

fn left_by_count(form: word::Form, gloss: word::Left) -> bool
    ensures { result ≡ left_by_count form gloss }
{
    match gloss {
        word::Left::N | word::Left::J => false,
        word::Left::G => !matches!(form, word::Form::P),
        word::Left::M => matches!(form, word::Form::M),
    }
}

// An element with a left reading of so many characters.
fn with_left(p: Piece, gloss: word::Left, lefts: usize) -> Piece
    ensures { result ≡ with_left p gloss lefts }
{
    Piece { gloss, lefts, ..p }
}

// Number 5 of an element's left reading, by its kind and counts, "as for right ones".
fn count_left(p: Piece, kind: u32, left: u32, runs: &[u32]) -> Option<Piece>
    requires { (p.leftrun ≤ 1024) × (p.bases ≤ 32) }
    ensures { result ≡ glossed_by p kind left runs.now }
{
    if !is_known_left(kind) {
        return None;
    }
    let form = p.form;
    let gloss = left_of(kind);
    if left_by_runs(form, gloss) {
        let taken = runs_from(p.leftrun, p.bases, runs)?;
        return Some(with_left(p, gloss, taken));
    }
    if left_by_count(form, gloss) {
        if is_outside(1, limits::ELEMENT_RUBIES, left) {
            return None;
        }
        return Some(with_left(p, gloss, left as usize));
    }
    Some(with_left(p, gloss, 0))
}

/// Number 5, right first, by an element's kind and counts, `lkind` and `left` those of its left reading; `None` where a kind is not known or a count is out of range. Most elements
/// have no left reading.
pub fn count_element(
    kind: u32,
    base: u32,
    ruby: u32,
    lkind: u32,
    left: u32,
    at: Taken,
    runs: &[u32],
    lruns: &[u32],
) -> Option<Piece>
    requires { (at.run ≤ 1024) × (at.leftrun ≤ 1024) }
    ensures { result ≡ counted_by kind base ruby lkind left runs.now lruns.now at }
{
    let p = count_right(kind, base, ruby, at, runs)?;
    if lkind == limits::LEFT_NONE {
        return Some(p);
    }
    count_left(p, lkind, left, lruns)
}

/// Number 16: "A left reading is mono on M, group on G, and mono, jukugo or group on J."
pub fn takes_left(p: Piece) -> bool
    ensures { result ≡ takes p.form p.gloss }
{
    match p.gloss {
        word::Left::N => true,
        word::Left::M => matches!(p.form, word::Form::M | word::Form::J),
        word::Left::G => matches!(p.form, word::Form::G | word::Form::J),
        word::Left::J => matches!(p.form, word::Form::J),
    }
}

/// Number 6 of an element: it needs more characters than are left.
pub fn runs_out(p: Piece, sizes: Sizes) -> bool
    requires { (p.base + p.bases < 2 ^ 40) × (p.ruby + p.rubies < 2 ^ 40) × (p.left + p.lefts < 2 ^ 40) }
    ensures { result ≡ (ltb sizes.bases (p.base + p.bases) || (ltb sizes.rubies (p.ruby + p.rubies) || ltb sizes.lefts (p.left + p.lefts))) }
{
    sizes.bases < p.base + p.bases
        || sizes.rubies < p.ruby + p.rubies
        || sizes.lefts < p.left + p.lefts
}

/// How many runs an element takes: only a J has any.
pub fn runs_taken(p: Piece) -> usize
    ensures { result ≡ takes_runs p.form p.bases }
{
    if matches!(p.form, word::Form::J) {
        p.bases
    } else {
        0
    }
}

/// How many runs its left reading takes.
pub fn left_runs_taken(p: Piece) -> usize
    ensures { result ≡ takes_left_runs p.form p.gloss p.bases }
{
    if left_by_runs(p.form, p.gloss) {
        p.bases
    } else {
        0
    }
}

/// What is taken with an element.
pub fn past(at: Taken, p: Piece) -> Taken
    requires { (at.base + p.bases < 2 ^ 40) × (at.ruby + p.rubies < 2 ^ 40) × (at.run + p.bases < 2 ^ 40) × (at.left + p.lefts < 2 ^ 40) × (at.leftrun + p.bases < 2 ^ 40) }
    ensures { result ≡ jobs.past at p }
{
    Taken {
        base: at.base + p.bases,
        ruby: at.ruby + p.rubies,
        run: at.run + runs_taken(p),
        left: at.left + p.lefts,
        leftrun: at.leftrun + left_runs_taken(p),
    }
}

/// Characters that no element took.
pub fn left_over(at: Taken, sizes: Sizes) -> bool
    ensures { result ≡ (ltb at.base sizes.bases || (ltb at.ruby sizes.rubies || ltb at.left sizes.lefts)) }
{
    at.base < sizes.bases || at.ruby < sizes.rubies || at.left < sizes.lefts
}
