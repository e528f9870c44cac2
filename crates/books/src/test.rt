// The table test: any words, one pass over each table.
ghost use Rattle.std.specs.Prelude.{◌≡◌, ◌+◌, ◌≤◌, length};
ghost use Rattle.books.specs.Layout.{pools, books_words};
ghost use Rattle.books.specs.Words.{tables, good_tables};
ghost use Rattle.books.specs.inner.Passes.{same_sums, settings_test};

use crate::layout::{ADMIN, BALANCES, OFFER_WIDTH, PAUSED, POOLS, RATE, STAKE_WIDTH, UNPAID};
use crate::lengths::is_lent;
use crate::offers::OfferLine;
use crate::pass::pass;
use crate::stakes::Stake;
use rules::limits::GREATEST_RATE;

// Whether the four words of the books from index `from` on are these sums.
fn same_sums(books: &[u64], from: usize, sums: [u64; POOLS]) -> bool
    requires { from + pools ≤ length books.now }
    ensures { result ≡ same_sums books.now from sums }
{
    books[from..from + POOLS] == sums[..]
}

// Whether the settings are in order.
fn settings_test(books: &[u64]) -> bool
    requires { length books.now ≡ books_words }
    ensures { result ≡ settings_test books.now }
{
    (books[ADMIN] != 0) & (books[PAUSED] <= 1) & (books[RATE] <= GREATEST_RATE)
}

// Whether lent words are well formed. The first test that fails ends it: tables that are refused cost no more than what is read of them.
pub fn tables_well_formed(stakes: &[u64], offers: &[u64], books: &[u64]) -> bool
    ensures { result ≡ good_tables (tables stakes.now offers.now books.now) }
{
    if !is_lent(stakes, offers, books) {
        return false;
    }
    let Some(staked) = pass::<STAKE_WIDTH, Stake>(stakes) else {
        return false;
    };
    if !same_sums(books, BALANCES, staked.sums) {
        return false;
    }
    let Some(offered) = pass::<OFFER_WIDTH, OfferLine>(offers) else {
        return false;
    };
    if !same_sums(books, UNPAID, offered.sums) {
        return false;
    }
    if !settings_test(books) {
        return false;
    }
    if !rows::blank(stakes, staked.used * STAKE_WIDTH) {
        return false;
    }
    rows::blank(offers, offered.used * OFFER_WIDTH)
}
