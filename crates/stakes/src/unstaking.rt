// Withdraw: settled on the staker's row, then written.
ghost use Rattle.std.specs.Prelude.{◌≡◌, true, not, cond, ◌&&◌, eqb, get_or};
ghost use Rattle.rules.specs.Limits.{flat};
ghost use Rattle.rules.specs.Answers.{answer_of, due, no_transfer, transfer_out};
ghost use Rattle.rules.specs.Stakes.{unstake};
ghost use Rattle.books.specs.Layout.{paused_word};
ghost use Rattle.books.specs.Words.{tables, books_of, good_tables, result_of, acted};
ghost use Rattle.stakes.specs.Staking.{StakeAsked};
ghost use Rattle.stakes.specs.inner.Changes.{UnstakeSettled};

use crate::staker::{Change, checked_amount, commit, row_of};
use books::{Books, Row, Stake};
use rules::limits::FLAT;
use rules::{Account, Answer, Direction, Refusal, StakeCall, Transfer};

// Whether a pause bars a withdrawal.
fn is_barred(books: &Books, pool: u64) -> bool
    ensures { result ≡ (not (eqb (get_or books.now paused_word 0) 0) && not (eqb pool flat)) }
{
    books::is_paused(books) & (pool != FLAT)
}

// The transfer of a yield, where there is one.
fn yield_out(account: Account, amount: u64) -> Option<Transfer>
    ensures { due result ≡ cond (eqb amount 0) no_transfer (transfer_out account amount) }
{
    (amount != 0).then_some(Transfer {
        direction: Direction::Out,
        account,
        amount,
    })
}

// Settles a withdrawal, alike. The yield, paid as a second transfer, doesn't lower the balance.
fn settle_unstake(
    stakes: &[u64],
    offers: &[u64],
    books: &Books,
    time: u64,
    signer: Account,
    c: StakeCall,
) -> Result<Change, Refusal>
    requires books_value { good_tables (tables stakes.now offers.now books.now) ≡ true }
    requires stake_asked { StakeAsked time c }
    ensures { UnstakeSettled (tables stakes.now offers.now books.now) time signer c result }
{
    let amount = checked_amount(is_barred(books, c.pool), signer, c)?;
    let used = Stake::used_in(stakes);
    let row = Stake::of(stakes, used, c.pool, c.staker);
    if whole::less(row.stake, amount) {
        return Err(Refusal::InsufficientBalance);
    }
    let accrual = books::banked_of(books, row, c.pool, time)?;
    Ok(Change {
        used,
        row: row_of(c, whole::sub(row.stake, amount), time, 0),
        balance: whole::sub(books::balance(books, c.pool), amount),
        one: Some(Transfer {
            direction: Direction::Out,
            account: c.staker,
            amount,
        }),
        two: yield_out(c.staker, accrual),
    })
}

// A withdrawal on lent words.
pub fn unstake(
    stakes: &mut [u64],
    offers: &[u64],
    books: &mut Books,
    time: u64,
    signer: Account,
    c: StakeCall,
) -> Answer
    requires books_value { good_tables (tables stakes.old offers.now books.old) ≡ true }
    requires stake_asked { StakeAsked time c }
    ensures { result_of (answer_of result) (tables stakes.new offers.now books.new) ≡ acted (tables stakes.old offers.now books.old) (unstake (books_of (tables stakes.old offers.now books.old)) time signer c) }
{
    let change = settle_unstake(stakes, offers, books, time, signer, c)?;
    Ok(commit(stakes, offers, books, change))
}
