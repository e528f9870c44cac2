// A fresh set: the empty tables that a history of calls begins from.
ghost use Rattle.std.specs.Prelude.{◌≡◌};
ghost use Rattle.rules.specs.Answers.{told_code};
ghost use Rattle.books.specs.Words.{tables};
ghost use Rattle.books.specs.Fresh.{fresh_words, renewed};

use crate::layout::ADMIN;
use crate::lengths::is_lent;
use rules::{Account, Refusal};

// Clears every row and figure and sets the admin. Where it is refused, every bit stays.
pub fn fresh(
    stakes: &mut [u64],
    offers: &mut [u64],
    books: &mut [u64],
    admin: Account,
) -> Result<(), Refusal>
    ensures { renewed (told_code result) (tables stakes.new offers.new books.new) ≡ fresh_words (tables stakes.old offers.old books.old) admin }
{
    if admin.0 == 0 {
        return Err(Refusal::Malformed);
    }
    if !is_lent(stakes, offers, books) {
        return Err(Refusal::BadTables);
    }
    stakes.fill(0);
    offers.fill(0);
    books.fill(0);
    books[ADMIN] = admin.0;
    Ok(())
}
