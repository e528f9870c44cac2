// The yield rate: every flat stake is banked at the old rate before the new one is stored. Settled by a pass that only reads, then written.
ghost use Rattle.std.specs.Prelude.{◌≡◌, true, cond, ◌+◌, ◌*◌, ◌≤◌, length};
ghost use Rattle.rows.specs.Rows.{word};
ghost use Rattle.rows.specs.inner.Moves.{row_written};
ghost use Rattle.rules.specs.Limits.{limit, flat};
ghost use Rattle.rules.specs.Answers.{answer_of, told_code, OverLimit};
ghost use Rattle.rules.specs.Settings.{accruals_fit, set_yield_rate};
ghost use Rattle.books.specs.Layout.{stake_width, accrual_word};
ghost use Rattle.books.specs.Tables.{room_of, table_words};
ghost use Rattle.books.specs.Words.{tables, stake_row_at, stake_words, books_of, good_tables, result_of, acted};
ghost use Rattle.books.specs.inner.Held.{stake_of};
ghost use Rattle.books.specs.inner.Banking.{Bankable};
ghost use Rattle.settings.specs.Rates.{RateAsked};
ghost use Rattle.settings.specs.inner.Banking.{BankedAs, banked_by, banked_rows, CanBank};

use crate::admin::{as_admin, stored};
use books::{Books, Row, Stake};
use rules::limits::{FLAT, GREATEST_RATE};
use rules::{Account, Answer, RateCall, Refusal};

// A row as it is banked, unless its accrual would pass its limit. A row that is no sharer of the flat pool stays.
fn banked_row(books: &Books, row: Stake, time: u64) -> Result<Stake, Refusal>
    requires { Bankable books.now flat time row.accrual }
    ensures { BankedAs books.now time (stake_of row) result }
{
    if !row.is_sharer(FLAT) {
        return Ok(row);
    }
    let accrual = books::banked_of(books, row, FLAT, time)?;
    Ok(Stake {
        since: time,
        accrual,
        ..row
    })
}

// Refuses where a row, as it is banked, would pass the limit of an accrual: from the last row down.
fn rows_fit(
    stakes: &[u64],
    books: &Books,
    from: usize,
    used: usize,
    time: u64,
) -> Result<(), Refusal>
    requires { CanBank stakes.now books.now from used time }
    ensures { told_code result ≡ cond (accruals_fit (banked_rows stakes.now books.now time)) 0 OverLimit }
{
    for i in (from..used).rev() {
        banked_row(books, Stake::at(stakes, i), time)?;
    }
    Ok(())
}

// Writes row i as it is banked, where it keeps to the limit.
fn bank_row(stakes: &mut [u64], books: &Books, i: usize, time: u64)
    requires stake_width_in_bounds { i * stake_width + stake_width ≤ length stakes.old }
    requires bankable { Bankable books.now flat time (word stakes.old stake_width i accrual_word) }
    requires i_bound { (banked_by books.now time (stake_row_at stakes.old i)).accrual ≤ limit }
    ensures { stakes.new ≡ row_written stakes.old stake_width i (stake_words (banked_by books.now time (stake_row_at stakes.old i))) }
{
    if let Ok(banked) = banked_row(books, Stake::at(stakes, i), time) {
        banked.write(stakes, i);
    }
}

// Writes all rows as they are banked.
fn bank_rows(stakes: &mut [u64], books: &Books, from: usize, used: usize, time: u64)
    requires can_bank { CanBank stakes.old books.now from used time }
    requires time_value { accruals_fit (banked_rows stakes.old books.now time) ≡ true }
    ensures { stakes.new ≡ table_words stake_words stake_width (room_of stake_width stakes.old) (banked_rows stakes.old books.now time) }
{
    for i in from..used {
        bank_row(stakes, books, i, time);
    }
}

pub fn set_yield_rate(
    stakes: &mut [u64],
    offers: &[u64],
    books: &mut Books,
    time: u64,
    signer: Account,
    c: RateCall,
) -> Answer
    requires books_value { good_tables (tables stakes.old offers.now books.old) ≡ true }
    requires rate_asked { RateAsked time c }
    ensures { result_of (answer_of result) (tables stakes.new offers.now books.new) ≡ acted (tables stakes.old offers.now books.old) (set_yield_rate (books_of (tables stakes.old offers.now books.old)) time signer c) }
{
    as_admin(books, signer)?;
    let rate = c.rate as u64;
    if GREATEST_RATE < rate {
        return Err(Refusal::OverLimit);
    }
    let used = Stake::used_in(stakes);
    let from = books::pool_start(stakes, used, FLAT);
    rows_fit(stakes, books, from, used, time)?;
    bank_rows(stakes, books, from, used, time);
    books::set_rate(books, rate);
    stored()
}
