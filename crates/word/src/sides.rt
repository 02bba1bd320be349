// A word with a reading on either side (R-5). Every string of a word is set over the length of the longest, so one function serves the readings of both sides.
ghost use Rattle.std.specs.Prelude.{◌≡◌, true, cond, ◌&&◌, ◌||◌, ◌+◌, ◌*◌, ◌≤◌, ◌<◌, leb};
ghost use Rattle.word.specs.Given.{is_g, is_j};
ghost use Rattle.word.specs.Both.{is_group};
ghost use Rattle.word.specs.Kinds.{not_kana, is_mixed, is_western};
ghost use Rattle.word.specs.Rows.{row_of};
ghost use Rattle.word.specs.Summed.{RunsFit, JukugosReady, jukugos_from, two_from, both_by};
ghost use Rattle.spread.specs.Ratio.{ratios_of, Housed};
ghost use Rattle.word.specs.Alone.{base_way};
ghost use Rattle.word.specs.Both.{longest};
ghost use Rattle.word.specs.Sides.{Counted, Strings, reading_over, sided, monos_word, groups_word};
ghost use Rattle.word.specs.Word.{between};

use super::{Answer, Base, Form, Left, NONE, Reading, RunStrand, Script, Sort, Str, Word};
use refusal::Refusal;

fn longest_of(b: u32, r: u32, l: u32) -> u32
    ensures { result ≡ longest b r l }
{
    b.max(r.max(l))
}

// A reading over the length t of its word's longest string.
#[tactic(auto, using(crate::proofs::Steps::space_steps), unfolding(crate::specs::Sides::reading_over))]
fn reading_over(way: spread::Way, ratios: [[u32; 3]; 2], em: u32, t: u32, s: Str) -> Reading
    requires { (s.width ≤ t) × (t ≤ 262144) × (Counted s) × (Housed (ratios_of ratios)) }
    ensures { result ≡ reading_over way (ratios_of ratios) em t s }
{
    let g = spread::gaps_of(spread::Which::Ruby, way, ratios, em, t - s.width, s.count);
    Reading {
        there: true,
        from: g.front,
        upto: g.front + 2 * s.width + g.within,
        within: g.within,
        runs: false,
    }
}

// A word of three strings, each by its way where it is not the longest.
#[tactic(auto, using(crate::proofs::Steps::space_steps), unfolding(crate::specs::Sides::sided))]
fn sided_of(
    right: spread::Way,
    left: spread::Way,
    base: spread::Way,
    ratios: [[u32; 3]; 2],
    em: u32,
    b: Str,
    r: Str,
    l: Str,
) -> Word
    requires { (Strings b r l) × (Housed (ratios_of ratios)) }
    ensures { result ≡ sided right left base (ratios_of ratios) em b r l }
{
    let t = longest_of(b.width, r.width, l.width);
    let g = spread::gaps_of(spread::Which::Base, base, ratios, em, t - b.width, b.count);
    Word {
        front: g.front,
        len: 2 * b.width + g.within,
        inbase: g.within,
        right: reading_over(right, ratios, em, t, r),
        left: reading_over(left, ratios, em, t, l),
    }
}

/// "Mono with mono is solid and centred on both sides." Base, right and left one by one and no struct of three: each is named in what is said of it.
pub fn monos_of(ratios: [[u32; 3]; 2], em: u32, b: Str, r: Str, l: Str) -> Word
    requires { (Strings b r l) × (Housed (ratios_of ratios)) }
    ensures { result ≡ monos_word (ratios_of ratios) em b r l }
{
    sided_of(
        spread::Way::Solid,
        spread::Way::Solid,
        spread::Way::Solid,
        ratios,
        em,
        b,
        r,
        l,
    )
}

// The way of the base, which is set with the longer reading ("right, if equal").
#[tactic(auto, using(std::proofs::lemmas::Bool::Decides::nat_tests))]
fn base_way_by(right: Script, left: Script, base: Script, r: u32, l: u32) -> spread::Way
    ensures { result ≡ cond (leb l r) (base_way right base) (base_way left base) }
{
    if l <= r {
        super::base_way(right, base)
    } else {
        super::base_way(left, base)
    }
}

/// Two groups, or jukugo taken as group.
pub fn groups_of(
    right: Script,
    left: Script,
    base: Script,
    ratios: [[u32; 3]; 2],
    em: u32,
    b: Str,
    r: Str,
    l: Str,
) -> Word
    requires { (Strings b r l) × (Housed (ratios_of ratios)) }
    ensures { result ≡ groups_word right left base (ratios_of ratios) em b r l }
{
    let under = base_way_by(right, left, base, r.width, l.width);
    sided_of(
        super::ruby_way(right, base),
        super::ruby_way(left, base),
        under,
        ratios,
        em,
        b,
        r,
        l,
    )
}

/// The runs of a J, each over its own character: the width of its base, and the lengths of the first and the last.
pub fn runs_reading(em: u32, base: u32, first: u32, last: u32) -> Reading
    requires { (first ≤ em) × (last ≤ em) × (em ≤ base) × (base ≤ 131072) }
    ensures { result ≡ between em base first last }
{
    Reading {
        there: true,
        from: em - first,
        upto: 2 * base - (em - last),
        within: 0,
        runs: true,
    }
}

// A J with a left reading: over their own characters on both sides, or taken as group on both.
#[tactic(auto, unfolding(crate::specs::Summed::jukugos_from))]
fn jukugos_from(
    left: Left,
    ratios: [[u32; 3]; 2],
    em: u32,
    base: Str,
    r: RunStrand,
    l: RunStrand,
) -> Word
    requires { (Strings base r.strand.string l.strand.string) × (Housed (ratios_of ratios)) × (em ≤ base.width) × (RunsFit em r) × (RunsFit em l) }
    ensures { result ≡ jukugos_from left (ratios_of ratios) em base r l }
{
    match (left, r.last, l.last) {
        (Left::N | Left::M | Left::J, Some(last), Some(lowest)) => Word {
            front: 0,
            len: 2 * base.width,
            inbase: 0,
            right: runs_reading(em, base.width, r.first, last),
            left: runs_reading(em, base.width, l.first, lowest),
        },
        _ => {
            let over = r.strand;
            let under = l.strand;
            groups_of(
                over.sort.script(),
                under.sort.script(),
                Script::Kana,
                ratios,
                em,
                base,
                over.string,
                under.string,
            )
        }
    }
}

// The first of numbers 7 to 10 that holds of a word with readings on both sides.
#[tactic(auto, unfolding(crate::specs::Rows::row_of))]
fn row_of(form: Form, place: u32, base: Base, r: Sort, l: Sort) -> Result<(), Refusal>
    ensures { result ≡ row_of form place base.blank base.sort base.uneven r l }
{
    let b = base.sort;
    if base.blank {
        return Err(Refusal::BlankInside(place));
    }
    if form == Form::J && (b.not_kana() || base.uneven) {
        return Err(Refusal::JukugoBase(place));
    }
    if matches!(form, Form::G | Form::J) && (b.is_mixed() || r.is_mixed() || l.is_mixed()) {
        return Err(Refusal::Mixed(place));
    }
    if form == Form::G && (super::western_over(r, b) || super::western_over(l, b)) {
        return Err(Refusal::WesternOver(place));
    }
    Ok(())
}

// The word of its form with its left reading.
#[tactic(auto, unfolding(crate::specs::Summed::two_from))]
fn two_from(
    form: Form,
    left: Left,
    ratios: [[u32; 3]; 2],
    em: u32,
    base: Base,
    r: RunStrand,
    l: RunStrand,
) -> Word
    requires { (Strings base.string r.strand.string l.strand.string) × (Housed (ratios_of ratios)) × (is_j form ≡ true → (em ≤ base.string.width) × (RunsFit em r) × (RunsFit em l)) }
    ensures { result ≡ two_from form left (ratios_of ratios) em base r l }
{
    let b = base.string;
    let over = r.strand;
    let under = l.strand;
    match form {
        Form::P => super::plain_of(b.width),
        Form::M => monos_of(ratios, em, b, over.string, under.string),
        Form::G => groups_of(
            over.sort.script(),
            under.sort.script(),
            base.sort.script(),
            ratios,
            em,
            b,
            over.string,
            under.string,
        ),
        Form::J => jukugos_from(left, ratios, em, b, r, l),
    }
}

/// A word with a left reading set within itself, or the first refusal that holds of it. "9 and 10 likewise" hold for left characters.
#[tactic(auto, using(crate::proofs::Steps::judged_steps), unfolding(crate::specs::Summed::both_by))]
pub fn both_answer(
    form: Form,
    left: Left,
    place: u32,
    ratios: [[u32; 3]; 2],
    em: u32,
    base: Base,
    r: RunStrand,
    l: RunStrand,
) -> Answer
    requires { (Strings base.string r.strand.string l.strand.string) × (Housed (ratios_of ratios)) × (is_j form ≡ true → JukugosReady em base r l) }
    ensures { result ≡ both_by form left place (ratios_of ratios) em base r l }
{
    match row_of(form, place, base, r.strand.sort, l.strand.sort) {
        Err(why) => Answer::Refused(why),
        Ok(()) => Answer::Set(two_from(form, left, ratios, em, base, r, l)),
    }
}
