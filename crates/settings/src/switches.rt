// Pause, unpause, payout caller: each a check, one write and the answer, so that one function of both would be no shorter than they are.
ghost use Rattle.std.specs.Prelude.{◌≡◌, true};
ghost use Rattle.rules.specs.Answers.{answer_of};
ghost use Rattle.rules.specs.Settings.{set_paused, set_payout_caller};
ghost use Rattle.books.specs.Words.{tables, books_of, good_tables, result_of, acted};

use crate::admin::{as_admin, by_admin, stored};
use books::Books;
use rules::{Account, Answer};

// Pause and unpause.
pub fn set_paused(
    stakes: &[u64],
    offers: &[u64],
    books: &mut Books,
    signer: Account,
    paused: bool,
) -> Answer
    requires { good_tables (tables stakes.now offers.now books.old) ≡ true }
    ensures { result_of (answer_of result) (tables stakes.now offers.now books.new) ≡ acted (tables stakes.now offers.now books.old) (set_paused (books_of (tables stakes.now offers.now books.old)) signer paused) }
{
    by_admin(books, signer)?;
    books::set_paused(books, paused);
    stored()
}

pub fn set_payout_caller(
    stakes: &[u64],
    offers: &[u64],
    books: &mut Books,
    signer: Account,
    caller: Account,
) -> Answer
    requires { good_tables (tables stakes.now offers.now books.old) ≡ true }
    ensures { result_of (answer_of result) (tables stakes.now offers.now books.new) ≡ acted (tables stakes.now offers.now books.old) (set_payout_caller (books_of (tables stakes.now offers.now books.old)) signer caller) }
{
    as_admin(books, signer)?;
    books::set_payout_caller(books, caller);
    stored()
}
