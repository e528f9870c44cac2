// Why a call is refused, and the code that document 01 gives each reason.
ghost use Rattle.std.specs.Prelude.{◌≡◌, ◌≤◌};
ghost use Rattle.rules.specs.Answers.{code_of};

#[derive(Clone, Copy, Debug, PartialEq, Eq)]
pub enum Refusal {
    Malformed = 1,
    BadTables = 2,
    Paused = 3,
    NoPayer = 4,
    NotAllowed = 5,
    InvalidInput = 6,
    NoRegistry = 7,
    InvalidTransition = 8,
    InsufficientBalance = 9,
    OverLimit = 10,
    TableFull = 11,
}

impl Refusal {
    // A code is never 0, which tells that the call is done.
    pub fn code(self) -> u64
        ensures value { result ≡ code_of self }
        ensures range { (1 ≤ result) × (result ≤ 11) }
    {
        self as u64
    }
}
