// What a stake and a withdrawal share: the first rungs, the staker's row as it is written, and the change that is written.
ghost use Rattle.std.specs.Prelude.{◌≡◌, Ok, IfOk};
ghost use Rattle.std.specs.Int.{w64};
ghost use Rattle.std.proofs.Common.{to_z};
ghost use Rattle.rules.specs.Answers.{answer_of, told_code};
ghost use Rattle.rules.specs.Books.{stake_row};
ghost use Rattle.books.specs.Words.{tables, books_of, result_of, acted};
ghost use Rattle.books.specs.inner.Held.{stake_of};
ghost use Rattle.stakes.specs.inner.Changes.{staker_code, AmountOf, Writable, change_plan};

use books::{Books, Row, Stake};
use rules::{Account, Done, Refusal, StakeCall, Transfer};

// What is written: the staker's row where so many are used, its pool's balance, and the transfers due.
#[derive(Clone, Copy)]
pub struct Change {
    pub used: usize,
    pub row: Stake,
    pub balance: u64,
    pub one: Option<Transfer>,
    pub two: Option<Transfer>,
}

// The amount of a call that the first rungs let pass, which is above 0.
#[tactic(auto, using(crate::proofs::StakeWords::amount_of), unfolding(crate::specs::inner::Changes::staker_code, rules::specs::Answers::not_by))]
pub fn checked_amount(barred: bool, signer: Account, c: StakeCall) -> Result<u64, Refusal>
    ensures code { told_code result ≡ staker_code barred signer c }
    ensures amount { IfOk result (AmountOf c.amount) }
{
    if barred {
        return Err(Refusal::Paused);
    }
    if signer != c.staker {
        return Err(Refusal::NotAllowed);
    }
    if c.amount <= 0 {
        return Err(Refusal::InvalidInput);
    }
    Ok(c.amount as u64)
}

// The staker's row with these figures: `since` is 0 where it has no stake.
pub fn row_of(c: StakeCall, stake: u64, time: u64, accrual: u64) -> Stake
    ensures { stake_of result ≡ stake_row c.pool c.staker.0 (to_z w64 stake) time accrual }
{
    Stake {
        pool: c.pool,
        account: c.staker.0,
        stake,
        since: if stake == 0 { 0 } else { time },
        accrual,
    }
}

// Writes a change, and answers its transfers.
pub fn commit(stakes: &mut [u64], offers: &[u64], books: &mut Books, change: Change) -> Done
    requires { Writable (tables stakes.old offers.now books.old) change.used (stake_of change.row) }
    ensures { result_of (answer_of (Ok result)) (tables stakes.new offers.now books.new) ≡ acted (tables stakes.old offers.now books.old) (change_plan (books_of (tables stakes.old offers.now books.old)) change) }
{
    books::set_balance(books, change.row.pool, change.balance);
    change.row.put(stakes, change.used);
    Done::new(0, 0, change.one, change.two)
}
