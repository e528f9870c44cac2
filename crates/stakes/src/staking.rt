// Stake: settled on the staker's row, then written.
ghost use Rattle.std.specs.Prelude.{◌≡◌, true, ◌&&◌, leb};
ghost use Rattle.rules.specs.Answers.{answer_of};
ghost use Rattle.rules.specs.Books.{stake_gone};
ghost use Rattle.rules.specs.Stakes.{stake};
ghost use Rattle.books.specs.Layout.{stake_width};
ghost use Rattle.books.specs.Tables.{room_of};
ghost use Rattle.books.specs.Words.{tables, books_of, good_tables, result_of, acted};
ghost use Rattle.books.specs.inner.Held.{stake_of};
ghost use Rattle.stakes.specs.Staking.{StakeAsked};
ghost use Rattle.stakes.specs.inner.Changes.{StakeSettled};

use crate::staker::{Change, checked_amount, commit, row_of};
use books::layout::STAKE_WIDTH;
use books::{Books, Row, Stake};
use rules::limits::{LIMIT, MIN_STAKE_AMOUNT};
use rules::{Account, Answer, Direction, Refusal, StakeCall, Transfer};

// Whether a staker's row is a new one that no row is free for.
fn no_room(stakes: &[u64], used: usize, row: Stake) -> bool
    ensures { result ≡ (stake_gone (stake_of row) && leb (room_of stake_width stakes.now) used) }
{
    row.is_gone() & (stakes.len() / STAKE_WIDTH <= used)
}

// Settles a stake. Nothing is written, and of the offers only the contract speaks.
fn settle_stake(
    stakes: &[u64],
    offers: &[u64],
    books: &Books,
    time: u64,
    signer: Account,
    c: StakeCall,
) -> Result<Change, Refusal>
    requires books_value { good_tables (tables stakes.now offers.now books.now) ≡ true }
    requires stake_asked { StakeAsked time c }
    ensures { StakeSettled (tables stakes.now offers.now books.now) time signer c result }
{
    let amount = checked_amount(books::is_paused(books), signer, c)?;
    if LIMIT < amount {
        return Err(Refusal::OverLimit);
    }
    let used = Stake::used_in(stakes);
    let row = Stake::of(stakes, used, c.pool, c.staker);
    let stake = whole::add(row.stake, amount);
    if whole::less(stake, MIN_STAKE_AMOUNT) {
        return Err(Refusal::InvalidInput);
    }
    if LIMIT < stake {
        return Err(Refusal::OverLimit);
    }
    let accrual = books::banked_of(books, row, c.pool, time)?;
    if no_room(stakes, used, row) {
        return Err(Refusal::TableFull);
    }
    Ok(Change {
        used,
        row: row_of(c, stake, time, accrual),
        balance: whole::add(books::balance(books, c.pool), amount),
        one: Some(Transfer {
            direction: Direction::In,
            account: c.staker,
            amount,
        }),
        two: None,
    })
}

// A stake on lent words.
pub fn stake(
    stakes: &mut [u64],
    offers: &[u64],
    books: &mut Books,
    time: u64,
    signer: Account,
    c: StakeCall,
) -> Answer
    requires books_value { good_tables (tables stakes.old offers.now books.old) ≡ true }
    requires stake_asked { StakeAsked time c }
    ensures { result_of (answer_of result) (tables stakes.new offers.now books.new) ≡ acted (tables stakes.old offers.now books.old) (stake (books_of (tables stakes.old offers.now books.old)) time signer c) }
{
    let change = settle_stake(stakes, offers, books, time, signer, c)?;
    Ok(commit(stakes, offers, books, change))
}
