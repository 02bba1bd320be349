// Why a job is refused: one case for each number of the refusal list (documents 01 and 02), in the order of the checks, with the place inside. The
// number and the place as the paper has them are functions of the case, so that every program and every export prints the
// same. It relies on nothing.
#![tactic(auto)]

ghost use Rattle.std.specs.Prelude.{◌≡◌};
ghost use Rattle.refusal.specs.Refusal.{number_of, place_of};

/// A refusal, each with the place that the list gives it.
#[derive(Clone, Copy, Debug, PartialEq, Eq)]
pub enum Refusal {
    /// 1: em odd, or em or measure out of range; 0 em, 1 measure.
    Range(u32),
    /// 15: a ratio number over 7, or all three 0; 0 the ruby ratio, 1 the base ratio.
    Ratio(u32),
    /// 20: a profile over 1. Its place is always 0.
    Profile,
    /// 2: a count over its maximum; 0 base, 1 ruby, 2 elements, 3 left characters.
    Count(u32),
    /// 12: a result list too short. Its place is always 0.
    Short,
    /// 3: class, width or flag not accepted; the character, ruby ones 1,024 + index, left ones 3,072 + index.
    Character(u32),
    /// 4: blanks against the class or over the width; the character.
    Blanks(u32),
    /// 5: unknown kind, or element counts out of range; the element.
    Element(u32),
    /// 16: a left kind that its element does not take; the element.
    LeftKind(u32),
    /// 6: characters run out, or some are left over; the element, or the element count.
    Supply(u32),
    /// 7: a blank field not 0 inside M, G or J; the element.
    BlankInside(u32),
    /// 8: a J base character not kana-like or not one em wide; the element.
    JukugoBase(u32),
    /// 9: class 26, or Western and kana-like mixed, within the base or the ruby of G or J; the element.
    Mixed(u32),
    /// 10: Western ruby over Western base in G; the element.
    WesternOver(u32),
    /// 11: no permitted break gives a line that can be set; the line's first base character.
    NoBreak(u32),
    /// 13: job sheet text breaks its form; the line from 1, 0 if over-long.
    Form(u32),
    /// 17: a form two sheet that form one can't hold; the first line at fault. The converter's alone.
    OtherForm(u32),
}

impl Refusal {
    /// The number that the refusal list gives it. By a match, since the cases carry their places.
    pub fn number(self) -> u32
        ensures { result ≡ number_of self }
    {
        match self {
            Refusal::Range(_) => 1,
            Refusal::Ratio(_) => 15,
            Refusal::Profile => 20,
            Refusal::Count(_) => 2,
            Refusal::Short => 12,
            Refusal::Character(_) => 3,
            Refusal::Blanks(_) => 4,
            Refusal::Element(_) => 5,
            Refusal::LeftKind(_) => 16,
            Refusal::Supply(_) => 6,
            Refusal::BlankInside(_) => 7,
            Refusal::JukugoBase(_) => 8,
            Refusal::Mixed(_) => 9,
            Refusal::WesternOver(_) => 10,
            Refusal::NoBreak(_) => 11,
            Refusal::Form(_) => 13,
            Refusal::OtherForm(_) => 17,
        }
    }

    /// The place that goes with it.
    pub fn place(self) -> u32
        ensures { result ≡ place_of self }
    {
        match self {
            Refusal::Profile | Refusal::Short => 0,
            Refusal::Range(p)
            | Refusal::Ratio(p)
            | Refusal::Count(p)
            | Refusal::Character(p)
            | Refusal::Blanks(p)
            | Refusal::Element(p)
            | Refusal::LeftKind(p)
            | Refusal::Supply(p)
            | Refusal::BlankInside(p)
            | Refusal::JukugoBase(p)
            | Refusal::Mixed(p)
            | Refusal::WesternOver(p)
            | Refusal::NoBreak(p)
            | Refusal::Form(p)
            | Refusal::OtherForm(p) => p,
        }
    }
}
