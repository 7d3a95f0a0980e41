// What the controller says (01's table): accepted, or why not. specs/Number.antt gives each answer its number.
#![tactic(auto)]

ghost use Rattle.std.specs.Prelude.{◌≡◌, min};
ghost use Rattle.answers.specs.Number.{refusal_number, number_of, highest};

#[derive(Clone, Copy, Debug, PartialEq, Eq)]
pub enum Refusal {
    TooLong,
    NotText,
    BadForm,
    OtherSpec,
    BadArgument,
    NotHeld,
    HeldExpired,
    OtherContent,
    FewHeldKeys,
    FewOwnKeys,
    WrongVersion,
    NoNews,
    WentBack,
    FileExpired,
    NotListed,
    OtherKeyid,
    EarlierStart,
}

pub type Answer = Result<(), Refusal>;

impl From<Refusal> for u8 {
    ghost from_gives = { λ r n. n ≡ refusal_number r };

    fn from(r: Refusal) -> u8 {
        match r {
            Refusal::TooLong => 1,
            Refusal::NotText => 2,
            Refusal::BadForm => 3,
            Refusal::OtherSpec => 4,
            Refusal::BadArgument => 5,
            Refusal::NotHeld => 6,
            Refusal::HeldExpired => 7,
            Refusal::OtherContent => 8,
            Refusal::FewHeldKeys => 9,
            Refusal::FewOwnKeys => 10,
            Refusal::WrongVersion => 11,
            Refusal::NoNews => 12,
            Refusal::WentBack => 13,
            Refusal::FileExpired => 14,
            Refusal::NotListed => 15,
            Refusal::OtherKeyid => 16,
            Refusal::EarlierStart => 17,
        }
    }
}

// 01's number.
pub fn number(a: Answer) -> u8
    ensures { result ≡ number_of a }
{
    match a {
        Ok(()) => 0,
        Err(r) => u8::from(r),
    }
}

// The answer of that number. No call gives a number above the highest.
pub fn numbered(n: u8) -> Answer
    ensures { number_of result ≡ min n highest }
{
    match n {
        0 => Ok(()),
        1 => Err(Refusal::TooLong),
        2 => Err(Refusal::NotText),
        3 => Err(Refusal::BadForm),
        4 => Err(Refusal::OtherSpec),
        5 => Err(Refusal::BadArgument),
        6 => Err(Refusal::NotHeld),
        7 => Err(Refusal::HeldExpired),
        8 => Err(Refusal::OtherContent),
        9 => Err(Refusal::FewHeldKeys),
        10 => Err(Refusal::FewOwnKeys),
        11 => Err(Refusal::WrongVersion),
        12 => Err(Refusal::NoNews),
        13 => Err(Refusal::WentBack),
        14 => Err(Refusal::FileExpired),
        15 => Err(Refusal::NotListed),
        16 => Err(Refusal::OtherKeyid),
        17..=255 => Err(Refusal::EarlierStart),
    }
}
