// Why a call is refused, or a run ends before all its steps are made: each reason once, by its name.
ghost use Rattle.std.specs.Prelude.{◌≡◌};
ghost use Rattle.meaning.specs.Reasons.{number_of};

/// The number of a call that has done all that was asked.
pub const ALL_DONE: u8 = 0;

/// Why a call is refused or a run ends early. docs/NUMBERS.md says when each is given.
#[derive(Clone, Copy, Debug, PartialEq, Eq)]
pub enum Reason {
    TooLong,
    NotThere,
    BadNumber,
    BadEnd,
    WrongTable,
    IllFormed,
    NotFresh,
    ClockFull,
    Halted,
    BadMark,
    BadMask,
    BadVariable,
    BadBuffer,
    StoreFull,
    BadStore,
}

impl Reason {
    /// The number that a call answers for it, 1 to 15.
    pub fn number(self) -> u8
        ensures { result ≡ number_of self }
    {
        match self {
            Reason::TooLong => 1,
            Reason::NotThere => 2,
            Reason::BadNumber => 3,
            Reason::BadEnd => 4,
            Reason::WrongTable => 5,
            Reason::IllFormed => 6,
            Reason::NotFresh => 7,
            Reason::ClockFull => 8,
            Reason::Halted => 9,
            Reason::BadMark => 10,
            Reason::BadMask => 11,
            Reason::BadVariable => 12,
            Reason::BadBuffer => 13,
            Reason::StoreFull => 14,
            Reason::BadStore => 15,
        }
    }
}

/// A refusal by a rule of the image's format, or of a call: why, and the bit at which the refused field begins, 0 where there is none.
#[derive(Clone, Copy, Debug, PartialEq, Eq)]
pub struct Refusal {
    pub reason: Reason,
    pub at: usize,
}

/// A refusal that no field of the image is the cause of.
impl From<Reason> for Refusal {
    ghost from_gives = { λ reason refusal. refusal ≡ record { reason = reason; at = 0 } };

    fn from(reason: Reason) -> Refusal {
        Refusal { reason, at: 0 }
    }
}
