// Why a sheet, a record or a chain is refused, and where. The numbers are those of the table of replies.

#![tactic(auto)]

ghost use Rattle.std.specs.Prelude.{◌≡◌};
ghost use Rattle.refusal.specs.Numbers.{number_of};

#[derive(Clone, Copy, PartialEq, Eq)]
pub enum Reason {
    Size,
    Trailer,
    Malformed,
    Range,
    Disorder,
    Link,
    Crowded,
    NoRoom,
    NoStructure,
    NoChain,
    BadStep,
}

impl Reason {
    pub fn number(self) -> u64
        ensures { result ≡ number_of self }
    {
        match self {
            Reason::Size => 1,
            Reason::Trailer => 2,
            Reason::Malformed => 3,
            Reason::Range => 4,
            Reason::Disorder => 5,
            Reason::Link => 6,
            Reason::Crowded => 7,
            Reason::NoRoom => 8,
            Reason::NoStructure => 9,
            Reason::NoChain => 10,
            Reason::BadStep => 11,
        }
    }
}

// The place is that of the line, the record or the step at fault; 0 where it is none of them.
#[derive(Clone, Copy, PartialEq, Eq)]
pub struct Refusal {
    pub reason: Reason,
    pub place: u64,
}
