// What an order answers.
ghost use Rattle.std.specs.Prelude.{◌≡◌};
ghost use Rattle.machine.specs.Answers.{number_of};

// 01, "Why an order is refused", each with its number there; the last is 02's, of a batch.
#[derive(Clone, Copy, Debug, PartialEq, Eq)]
pub enum Refusal {
    Unsound = 1,
    NoRegister = 2,
    EmptySource = 3,
    WrongKind = 4,
    NoRing = 5,
    RingsDiffer = 6,
    OutOfRange = 7,
    BadLength = 8,
    TapeShort = 9,
    BadItem = 10,
    ChannelShort = 11,
    NotSixtyFour = 23,
}

// What an order that is done opened, or 0, and the gates that it spent.
#[derive(Clone, Copy, Debug, PartialEq, Eq)]
pub struct Done {
    pub value: u64,
    pub gates: u64,
}

pub type Answer = Result<Done, Refusal>;

impl Refusal {
    // Its number in 01, or in 02, as C and a line answer it. No `From`: `why.number()` says what the u64 is, `u64::from(why)` not.
    pub fn number(self) -> u64
        ensures { result ≡ number_of self }
    {
        self as u64
    }
}
