// What a call that is done answers.
ghost use Rattle.std.specs.Prelude.{◌≡◌, ◌<◌, ◌^◌, pos, Ok};
ghost use Rattle.rules.specs.Answers.{done, answer_of, due};

use crate::{Account, Refusal};

// Which way money goes: from the account to the pool, or from the pool to the account.
#[derive(Clone, Copy, Debug, PartialEq, Eq)]
pub enum Direction {
    In,
    Out,
}

#[derive(Clone, Copy, Debug, PartialEq, Eq)]
pub struct Transfer {
    pub direction: Direction,
    pub account: Account,
    pub amount: u64,
}

// Two numbers, and at most two transfers that are due.
#[derive(Clone, Copy, Debug, PartialEq, Eq)]
pub struct Done {
    pub first: i64,
    pub second: i64,
    pub one: Option<Transfer>,
    pub two: Option<Transfer>,
}

pub type Answer = Result<Done, Refusal>;

impl Done {
    // Of numbers that are not below 0.
    pub fn new(first: u64, second: u64, one: Option<Transfer>, two: Option<Transfer>) -> Done
        requires { (first < 2 ^ 63) × (second < 2 ^ 63) }
        ensures { answer_of (Ok result) ≡ done (pos first) (pos second) (due one) (due two) }
    {
        Done {
            first: first as i64,
            second: second as i64,
            one,
            two,
        }
    }
}
