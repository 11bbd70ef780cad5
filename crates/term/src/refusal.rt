// Why something is refused, and what every call gives back.
ghost use Rattle.std.specs.Prelude.{◌≡◌};
ghost use Rattle.term.specs.Refused.{refusal_number, verdict_in};

// A line each of the README's table of numbers, which says when.
#[derive(Clone, Copy, Debug, PartialEq, Eq)]
pub enum Refusal {
    CutShort,
    NoHead,
    WrongEdition,
    WrongKind,
    WrongBase,
    WrongTag,
    WrongLength,
    IllegalTerm,
    NotAName,
    IllegalAnnotation,
    LanesUnfit,
    NoRoom,
    TooLong,
    CountPastLanes,
    NotAbove,
    Misfit,
    WrongPart,
    WrongShape,
    WrongVariable,
    TooManyParts,
    NotBound,
    StandsOutside,
    StepsIllegal,
    LooksUsedUp,
    NotNTriples,
    NoNames,
    MissesLarger,
    WrongRuleSet,
    NoText,
}

impl Refusal {
    // The number in that table.
    pub fn number(self) -> u8
        ensures { result ≡ refusal_number self }
    {
        match self {
            Refusal::CutShort => 1,
            Refusal::NoHead => 2,
            Refusal::WrongEdition => 3,
            Refusal::WrongKind => 4,
            Refusal::WrongBase => 5,
            Refusal::WrongTag => 6,
            Refusal::WrongLength => 7,
            Refusal::IllegalTerm => 8,
            Refusal::NotAName => 9,
            Refusal::IllegalAnnotation => 10,
            Refusal::LanesUnfit => 11,
            Refusal::NoRoom => 12,
            Refusal::TooLong => 13,
            Refusal::CountPastLanes => 14,
            Refusal::NotAbove => 15,
            Refusal::Misfit => 16,
            Refusal::WrongPart => 17,
            Refusal::WrongShape => 18,
            Refusal::WrongVariable => 19,
            Refusal::TooManyParts => 20,
            Refusal::NotBound => 21,
            Refusal::StandsOutside => 22,
            Refusal::StepsIllegal => 23,
            Refusal::LooksUsedUp => 24,
            Refusal::NotNTriples => 26,
            Refusal::NoNames => 27,
            Refusal::MissesLarger => 28,
            Refusal::WrongRuleSet => 36,
            Refusal::NoText => 39,
        }
    }

    pub fn at(self, place: usize) -> Refused
        ensures { result ≡ record { why = self; place = place } }
    {
        Refused { why: self, place }
    }
}

// A refusal, and the place that its line names; 0 where it names none.
#[derive(Clone, Copy, Debug, PartialEq, Eq)]
pub struct Refused {
    pub why: Refusal,
    pub place: usize,
}

// "Place is 0 unless named."
impl From<Refusal> for Refused {
    ghost from_gives = { λ why r. r ≡ record { why = why; place = 0 } };

    fn from(why: Refusal) -> Refused {
        why.at(0)
    }
}

// What every call gives back: a number, 0 where it is done, and the place that the number names.
#[derive(Drop)]
pub struct Verdict {
    pub number: u8,
    pub place: usize,
}

impl From<Result<(), Refused>> for Verdict {
    ghost from_gives = { λ r v. v ≡ verdict_in r };

    fn from(judged: Result<(), Refused>) -> Verdict {
        match judged {
            Ok(()) => Verdict {
                number: 0,
                place: 0,
            },
            Err(e) => Verdict {
                number: e.why.number(),
                place: e.place,
            },
        }
    }
}
