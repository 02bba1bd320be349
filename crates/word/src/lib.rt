// Level one: the word alone (document 01, "Level one"). Each form's function answers a word's record by value and writes nothing; where its characters stand at a given origin the definitions
// `base_starts` and `ruby_starts` say (specs/Word.antt). A word is set in its own coordinates, in half units from the start of its longer string. Nothing but the word comes
// in (em, the house ratios, form, its own characters), so no neighbour can alter what it decides. The ratios are two arrays of three numbers by value, as document 01 has it ("Where each
// language form belongs"), and so each contract says that they are `Housed`. It relies on `class` for kinds, on `spread` for one string, on `refusal` and on `basics`.
#![tactic(auto)]

ghost use Rattle.std.specs.Prelude.{◌≡◌, true, false, not, ◌&&◌, ◌||◌, ℕ, ◌+◌, ◌-◌, ◌^◌, ◌≤◌, ◌<◌, length, get_or, map};
ghost use Rattle.basics.specs.Lists.{sum, any, other};
ghost use Rattle.spread.specs.Ratio.{ratios_of, Housed};
ghost use Rattle.word.specs.Alone.{ruby_way, base_way, split};
ghost use Rattle.word.specs.Word.{plain};
ghost use Rattle.word.specs.Numbers.{word_from, Measured};
ghost use Rattle.word.specs.Given.{is_j};
ghost use Rattle.word.specs.Sized.{IsString};
ghost use Rattle.word.specs.Sides.{str_of};
ghost use Rattle.word.specs.Summed.{base_of, strand_of, run_strand_of, mono_by, group_from, group_by, jukugo_judged, single_from, single_by};
ghost use Rattle.class.specs.Class.{kana_like};
ghost use Rattle.word.specs.Kinds.{mix_of, mixed_by, with, sort_by, sort_of, is_mixed, not_kana, is_western, script_of};
ghost use Rattle.word.specs.declared.Answer.TheVariants.{Set};
ghost use Rattle.word.specs.Runs.{runs_of};

use refusal::Refusal;

mod sides;

pub use sides::{both_answer, groups_of, monos_of, runs_reading};

/// The kinds of element (document 01, "The job").
#[derive(Clone, Copy, Debug, PartialEq, Eq)]
pub enum Form {
    P,
    M,
    G,
    J,
}

/// The kind of a left reading. N, none, is a kind beside the others: what is said of a left reading is said by one match over all four.
#[derive(Clone, Copy, Debug, PartialEq, Eq)]
pub enum Left {
    N,
    M,
    G,
    J,
}

/// A reading in its word's coordinates: [from, upto), where it is there. `within` is the space within it; with runs, each run stands solid over its own character instead.
// A flag with its numbers beside it, as in `line::Reading`, where an Option was measured and is slower; and each row of a job's table holds two of these.
#[derive(Clone, Copy)]
pub struct Reading {
    pub there: bool,
    pub runs: bool,
    pub from: u32,
    pub upto: u32,
    pub within: u32,
}

/// No reading.
pub const NONE: Reading = Reading {
    there: false,
    from: 0,
    upto: 0,
    within: 0,
    runs: false,
};

/// A word: its block is [front, front + len), with `inbase` half units of space within its base, and a reading on either side.
#[derive(Clone, Copy)]
pub struct Word {
    pub front: u32,
    pub len: u32,
    pub inbase: u32,
    pub right: Reading,
    pub left: Reading,
}

/// A string by its width in units and its count of characters.
// What its numbers are bounded by is asked where it is needed (`Measured`, `IsString`, `Strings`): an invariant of the type would ask it of every caller.
#[derive(Clone, Copy)]
pub struct Str {
    pub width: u32,
    pub count: u32,
}

/// What level one asks of a word's base: whether some blank field is not 0 (number 7), what it is made of (8 to 10), of a J whether one is not one em wide (8), and its string.
#[derive(Clone, Copy)]
pub struct Base {
    pub blank: bool,
    pub sort: Sort,
    pub uneven: bool,
    pub string: Str,
}

/// What it asks of a reading.
#[derive(Clone, Copy)]
pub struct Strand {
    pub sort: Sort,
    pub string: Str,
}

/// What it asks of a reading that may be laid by runs: the length in units of the first run, and of the last where none is longer than one em.
#[derive(Clone, Copy)]
pub struct RunStrand {
    pub strand: Strand,
    pub first: u32,
    pub last: Option<u32>,
}

/// An element set within itself, or its refusal with the element's place. Document 01 asks for this form, "an answer enum whose refused case carries a refusal enum", and a line takes
/// it apart by let-else and hands the refusal up unchanged; the judgements inside are a `Result`.
#[derive(Clone, Copy)]
pub enum Answer {
    Set(Word),
    Refused(Refusal),
}

/// What a string is made of, once number 9 has let it pass.
#[derive(Clone, Copy, Debug, PartialEq, Eq)]
pub enum Script {
    Kana,
    Western,
}

/// What a string is made of: kana-like characters alone; Western ones, and no kana-like; a mixture, which number 9 refuses; anything else, of which no job has any.
#[derive(Clone, Copy, Debug, PartialEq, Eq)]
pub enum Sort {
    Kana,
    Western,
    Mixed,
    Other,
}

// The kinds that a string has; `outside` are those that no job may have.
#[derive(Clone, Copy)]
struct Mix {
    kana: bool,
    western: bool,
    space: bool,
    outside: bool,
}

impl Sort {
    // Number 9 of one string.
    fn is_mixed(self) -> bool
        ensures { result ≡ is_mixed self }
    {
        self == Sort::Mixed
    }

    // Some character is not kana-like.
    fn not_kana(self) -> bool
        ensures { result ≡ not_kana self }
    {
        self != Sort::Kana
    }

    fn is_western(self) -> bool
        ensures { result ≡ is_western self }
    {
        self == Sort::Western
    }

    fn script(self) -> Script
        ensures { result ≡ script_of self }
    {
        if self.is_western() {
            Script::Western
        } else {
            Script::Kana
        }
    }
}

impl Mix {
    // What is found once one more character of the kind k is.
    fn with(self, k: class::Kind) -> Mix
        ensures { result ≡ with self k }
    {
        match k {
            class::Kind::KanaLike => Mix { kana: true, ..self },
            class::Kind::Western => Mix {
                western: true,
                ..self
            },
            class::Kind::Space => Mix {
                space: true,
                ..self
            },
            class::Kind::Outside => Mix {
                outside: true,
                ..self
            },
        }
    }

    // The kinds of a string's characters, one by one.
    #[tactic(auto, using(crate::proofs::Steps::kind_steps), unfolding(crate::specs::Kinds::mix_of))]
    fn of(cs: &[u32]) -> Mix
        ensures { result ≡ mix_of cs.now }
    {
        let mut m = Mix {
            kana: false,
            western: false,
            space: false,
            outside: false,
        };
        for c in cs {
            m = m.with(class::kind_of(*c));
        }
        m
    }

    // Number 9 of one string, by the kinds that it has.
    fn mixes(self) -> bool
        ensures { result ≡ mixed_by self }
    {
        self.space || self.western && self.kana
    }

    // What a string with these kinds is made of.
    fn sort(self) -> Sort
        ensures { result ≡ sort_by self }
    {
        if self.mixes() {
            Sort::Mixed
        } else if self.western {
            Sort::Western
        } else if self.outside {
            Sort::Other
        } else {
            Sort::Kana
        }
    }
}

// Every character is kana-like. By the index, since `iter().all(..)` takes 3 to 5 instructions a word more: each string is looked through by this.
#[tactic(auto, using(crate::proofs::Steps::search_steps))]
fn all_kana(cs: &[u32]) -> bool
    ensures { not result ≡ any (λ c. not (kana_like c)) cs.now }
{
    for i in 0..cs.len() {
        if !class::is_kana(cs[i]) {
            return false;
        }
    }
    true
}

/// What a string is made of. Most are kana-like throughout.
#[tactic(auto, using(crate::proofs::Steps::kind_steps))]
pub fn sort_of(cs: &[u32]) -> Sort
    ensures { result ≡ sort_of cs.now }
{
    if all_kana(cs) {
        return Sort::Kana;
    }
    Mix::of(cs).sort()
}

// How the ruby of a G is set where it is the shorter.
fn ruby_way(r: Script, b: Script) -> spread::Way
    ensures { result ≡ ruby_way r b }
{
    match (r, b) {
        (Script::Kana, Script::Kana) => spread::Way::Limited,
        (Script::Kana, Script::Western) => spread::Way::Spread,
        (Script::Western, _) => spread::Way::Solid,
    }
}

// How the base of a G is set where it is the shorter.
fn base_way(r: Script, b: Script) -> spread::Way
    ensures { result ≡ base_way r b }
{
    match (r, b) {
        (Script::Kana, Script::Kana) => spread::Way::Spread, // without the limit: that is for ruby alone
        (Script::Western, Script::Kana) => spread::Way::Spread,
        (_, Script::Western) => spread::Way::Solid,
    }
}

// A word without ruby, of the width b in units.
#[tactic(auto, unfolding(crate::specs::Word::plain))]
fn plain_of(b: u32) -> Word
    requires { b ≤ 131072 }
    ensures { result ≡ plain b }
{
    Word {
        front: 0,
        len: 2 * b,
        inbase: 0,
        right: NONE,
        left: NONE,
    }
}

/// The word of two strings, by the way and the ratio of each where it is the shorter.
#[tactic(auto, using(crate::proofs::Steps::space_steps), unfolding(crate::specs::Numbers::word_from, crate::specs::Word::short_ruby, crate::specs::Word::short_base))]
pub fn word_from(
    over: spread::Way,
    under: spread::Way,
    ratios: [[u32; 3]; 2],
    em: u32,
    base: Str,
    ruby: Str,
) -> Word
    requires { (Measured base ruby) × (Housed (ratios_of ratios)) }
    ensures { result ≡ word_from over under (ratios_of ratios) em base.width base.count ruby.width ruby.count }
{
    let b = base.width;
    let r = ruby.width;
    if r <= b {
        let g = spread::gaps_of(spread::Which::Ruby, over, ratios, em, b - r, ruby.count);
        return Word {
            front: 0,
            len: 2 * b,
            inbase: 0,
            right: Reading {
                there: true,
                from: g.front,
                upto: g.front + 2 * r + g.within,
                within: g.within,
                runs: false,
            },
            left: NONE,
        };
    }
    let g = spread::gaps_of(spread::Which::Base, under, ratios, em, r - b, base.count);
    Word {
        front: g.front,
        len: 2 * b + g.within,
        inbase: g.within,
        right: Reading {
            there: true,
            upto: 2 * r,
            ..NONE
        },
        left: NONE,
    }
}

// The word of a G, by what its strings are made of.
#[tactic(auto, unfolding(crate::specs::Summed::group_from))]
fn group_from(r: Script, b: Script, ratios: [[u32; 3]; 2], em: u32, base: Str, ruby: Str) -> Word
    requires { (Measured base ruby) × (Housed (ratios_of ratios)) }
    ensures { result ≡ group_from r b (ratios_of ratios) em base ruby }
{
    word_from(ruby_way(r, b), base_way(r, b), ratios, em, base, ruby)
}

// A J's runs against one em: the length of the last, where none is longer.
#[tactic(auto, using(crate::proofs::Steps::run_steps), unfolding(crate::specs::Runs::runs_of))]
fn last_run(em: u32, runs: &[u32], ws: &[u32]) -> Option<u32>
    requires { (sum runs.now ≤ length ws.now) × (sum ws.now < 2 ^ 32) }
    ensures { result ≡ runs_of em runs.now ws.now }
{
    let mut last: u32 = 0;
    let mut a: usize = 0;
    for n in runs {
        let e = a + *n as usize;
        last = basics::sum_of(&ws[a..e]);
        if em < last {
            return None;
        }
        a = e;
    }
    Some(last)
}

// The length of a J's first run.
#[tactic(auto, using(crate::proofs::Steps::run_steps))]
fn first_run(runs: &[u32], ws: &[u32]) -> u32
    requires { (sum runs.now ≤ length ws.now) × (sum ws.now < 2 ^ 32) }
    ensures { result ≡ get_or (map sum (split runs.now ws.now)) 0 0 }
{
    match runs.first() {
        Some(&n) => basics::sum_of(&ws[..n as usize]),
        None => 0,
    }
}

/// Number 7 of an element with ruby: some blank field of its characters is not 0. Both fields are looked at in one pass,
/// by the index: of `zip` and `any` the proof did not close, and two passes cost long words 2 instructions a character.
#[tactic(auto, using(crate::proofs::Steps::search_steps))]
pub fn blank_inside(before: &[u32], after: &[u32]) -> bool
    requires { length before.now ≡ length after.now }
    ensures { result ≡ (any (other 0) before.now || any (other 0) after.now) }
{
    for i in 0..before.len() {
        if before[i] != 0 || after[i] != 0 {
            return true;
        }
    }
    false
}

// Number 10, by what ruby and base are made of.
fn western_over(r: Sort, b: Sort) -> bool
    ensures { result ≡ (is_western r && is_western b) }
{
    r.is_western() && b.is_western()
}

/// A P: its word.
pub fn plain_answer(b: u32) -> Answer
    requires { b ≤ 131072 }
    ensures { result ≡ Set (plain b) }
{
    Answer::Set(plain_of(b))
}

/// A string by its list.
pub fn str_of(ws: &[u32]) -> Str
    requires { IsString ws.now }
    ensures { result ≡ str_of ws.now }
{
    Str {
        width: basics::sum_of(ws),
        count: ws.len() as u32,
    }
}

/// Whether a base character is not one em wide; only a J is asked.
pub fn is_uneven(form: Form, em: u32, bs: &[u32]) -> bool
    ensures { result ≡ (is_j form && any (other em) bs.now) }
{
    form == Form::J && basics::any_but(em, bs)
}

/// A word's base, as level one asks for it.
pub fn base_of(form: Form, em: u32, bc: &[u32], bs: &[u32], before: &[u32], after: &[u32]) -> Base
    requires { (IsString bs.now) × (length before.now ≡ length after.now) }
    ensures { result ≡ base_of form em bc.now bs.now before.now after.now }
{
    Base {
        blank: blank_inside(before, after),
        sort: sort_of(bc),
        uneven: is_uneven(form, em, bs),
        string: str_of(bs),
    }
}

/// A reading, as level one asks for it.
pub fn strand_of(cs: &[u32], ws: &[u32]) -> Strand
    requires { IsString ws.now }
    ensures { result ≡ strand_of cs.now ws.now }
{
    Strand {
        sort: sort_of(cs),
        string: str_of(ws),
    }
}

/// A reading that may be laid by runs, as level one asks for it.
pub fn run_strand_of(em: u32, cs: &[u32], ws: &[u32], runs: &[u32]) -> RunStrand
    requires { (IsString ws.now) × (sum runs.now ≤ length ws.now) }
    ensures { result ≡ run_strand_of em cs.now ws.now runs.now }
{
    RunStrand {
        strand: strand_of(cs, ws),
        first: first_run(runs, ws),
        last: last_run(em, runs, ws),
    }
}

/// An M of b and r units: number 7, or its word. It is solid, so neither ratio, em nor count is asked.
#[tactic(auto, unfolding(crate::specs::Summed::mono_by))]
pub fn mono_answer(place: u32, blank: bool, b: u32, r: u32) -> Answer
    requires { (b ≤ 131072) × (r ≤ 262144) }
    ensures { result ≡ mono_by place blank b r }
{
    if blank {
        return Answer::Refused(Refusal::BlankInside(place));
    }
    let base = Str { width: b, count: 1 };
    let ruby = Str { width: r, count: 1 };
    Answer::Set(word_from(
        spread::Way::Solid,
        spread::Way::Solid,
        spread::USUAL,
        0,
        base,
        ruby,
    ))
}

/// A G: numbers 7, 9 and 10, or its word.
#[tactic(auto, unfolding(crate::specs::Summed::group_by))]
pub fn group_answer(place: u32, ratios: [[u32; 3]; 2], em: u32, base: Base, ruby: Strand) -> Answer
    requires { (Measured base.string ruby.string) × (Housed (ratios_of ratios)) }
    ensures { result ≡ group_by place (ratios_of ratios) em base ruby }
{
    let b = base.sort;
    let r = ruby.sort;
    if base.blank {
        return Answer::Refused(Refusal::BlankInside(place));
    }
    if b.is_mixed() || r.is_mixed() {
        return Answer::Refused(Refusal::Mixed(place));
    }
    if western_over(r, b) {
        return Answer::Refused(Refusal::WesternOver(place));
    }
    Answer::Set(group_from(r.script(), b.script(), ratios, em, base.string, ruby.string))
}

/// Numbers 7, 8 and 9 of a J. Once 8 has passed its base is kana-like throughout, so 9 is about its ruby alone. A J of two characters or more is asked no more than this: it is measured
/// by its runs, where they are written.
#[tactic(auto, unfolding(crate::specs::Summed::jukugo_judged))]
pub fn judge_jukugo(place: u32, base: Base, ruby: Sort) -> Result<(), Refusal>
    ensures { result ≡ jukugo_judged place base ruby }
{
    if base.blank {
        return Err(Refusal::BlankInside(place));
    }
    if base.sort.not_kana() || base.uneven {
        return Err(Refusal::JukugoBase(place));
    }
    if ruby.is_mixed() {
        return Err(Refusal::Mixed(place));
    }
    Ok(())
}

// The word of a J of one character, whose only run is all of its ruby.
#[tactic(auto, using(std::proofs::lemmas::Bool::Decides::nat_tests), unfolding(crate::specs::Summed::single_from))]
fn single_from(r: Script, ratios: [[u32; 3]; 2], em: u32, base: Str, ruby: Str) -> Word
    requires { (Measured base ruby) × (Housed (ratios_of ratios)) × (em ≤ base.width) }
    ensures { result ≡ single_from r (ratios_of ratios) em base ruby }
{
    if em < ruby.width {
        return group_from(r, Script::Kana, ratios, em, base, ruby);
    }
    Word {
        front: 0,
        len: 2 * base.width,
        inbase: 0,
        right: runs_reading(em, base.width, ruby.width, ruby.width),
        left: NONE,
    }
}

/// A J of one character: numbers 7, 8 and 9, or its word.
#[tactic(auto, using(crate::proofs::Steps::judged_steps), unfolding(crate::specs::Summed::single_by))]
pub fn single_answer(place: u32, ratios: [[u32; 3]; 2], em: u32, base: Base, ruby: Strand) -> Answer
    requires { (Measured base.string ruby.string) × (Housed (ratios_of ratios)) × (base.uneven ≡ false → em ≤ base.string.width) }
    ensures { result ≡ single_by place (ratios_of ratios) em base ruby }
{
    match judge_jukugo(place, base, ruby.sort) {
        Err(why) => Answer::Refused(why),
        Ok(()) => Answer::Set(single_from(
            ruby.sort.script(),
            ratios,
            em,
            base.string,
            ruby.string,
        )),
    }
}
