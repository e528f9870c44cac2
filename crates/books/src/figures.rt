// The figures of the books by name, each with a read and a store of its own: one for all would need its name as a value. A balance is a signed word.
ghost use Rattle.std.specs.Prelude.{◌≡◌, not, cond, ◌+◌, ◌<◌, eqb, get_or, set};
ghost use Rattle.books.specs.Layout.{pools, unpaid_words, admin_word, caller_word, paused_word, rate_word};

use crate::layout::{ADMIN, BALANCES, Books, CALLER, PAUSED, RATE, UNPAID};
use rules::Account;

// A pool's balance.
pub fn balance(books: &Books, pool: u64) -> u64
    requires { pool < pools }
    ensures { result ≡ get_or books.now pool 0 }
{
    books[BALANCES + pool as usize]
}

pub fn set_balance(books: &mut Books, pool: u64, balance: u64)
    requires { pool < pools }
    ensures { books.new ≡ set books.old pool balance }
{
    books[BALANCES + pool as usize] = balance;
}

// A pool's reserved sum that is not paid.
pub fn unpaid(books: &Books, pool: u64) -> u64
    requires { pool < pools }
    ensures { result ≡ get_or books.now (unpaid_words + pool) 0 }
{
    books[UNPAID + pool as usize]
}

pub fn set_unpaid(books: &mut Books, pool: u64, unpaid: u64)
    requires { pool < pools }
    ensures { books.new ≡ set books.old (unpaid_words + pool) unpaid }
{
    books[UNPAID + pool as usize] = unpaid;
}

pub fn admin(books: &Books) -> Account
    ensures { result.0 ≡ get_or books.now admin_word 0 }
{
    Account(books[ADMIN])
}

// The payout caller, 0 where none is set.
pub fn payout_caller(books: &Books) -> Account
    ensures { result.0 ≡ get_or books.now caller_word 0 }
{
    Account(books[CALLER])
}

pub fn set_payout_caller(books: &mut Books, caller: Account)
    ensures { books.new ≡ set books.old caller_word caller.0 }
{
    books[CALLER] = caller.0;
}

pub fn is_paused(books: &Books) -> bool
    ensures { result ≡ not (eqb (get_or books.now paused_word 0) 0) }
{
    books[PAUSED] != 0
}

pub fn set_paused(books: &mut Books, paused: bool)
    ensures { books.new ≡ set books.old paused_word (cond paused 1 0) }
{
    books[PAUSED] = paused as u64;
}

// The flat pool's rate.
pub fn rate(books: &Books) -> u64
    ensures { result ≡ get_or books.now rate_word 0 }
{
    books[RATE]
}

pub fn set_rate(books: &mut Books, rate: u64)
    ensures { books.new ≡ set books.old rate_word rate }
{
    books[RATE] = rate;
}
