// The lengths of the lent slices.
ghost use Rattle.std.specs.Prelude.{◌≡◌, ◌*◌, ◌/◌, ◌<◌, eqb};
ghost use Rattle.rules.specs.Books.{rooms_lent};
ghost use Rattle.books.specs.Words.{tables};
ghost use Rattle.books.specs.Fresh.{lent};

use crate::layout::{BOOKS_LENGTH, OFFER_WIDTH, STAKE_WIDTH};
use rules::limits::{MOST_OFFERS, MOST_STAKES};

// Whether so many words are whole rows.
fn whole_rows(words: usize, width: usize) -> bool
    requires { 0 < width }
    ensures { result ≡ eqb (words / width * width) words }
{
    words % width == 0
}

// Whether so many rows may be lent.
fn rooms_lent(stakes: usize, offers: usize) -> bool
    ensures { result ≡ rooms_lent (record { stakes = stakes; offers = offers }) }
{
    (1 <= stakes) & (stakes <= MOST_STAKES) & (1 <= offers) & (offers <= MOST_OFFERS)
}

// Whether the slices have lengths that may be lent.
pub fn is_lent(stakes: &[u64], offers: &[u64], books: &[u64]) -> bool
    ensures { result ≡ lent (tables stakes.now offers.now books.now) }
{
    whole_rows(stakes.len(), STAKE_WIDTH)
        & whole_rows(offers.len(), OFFER_WIDTH)
        & (books.len() == BOOKS_LENGTH)
        & rooms_lent(stakes.len() / STAKE_WIDTH, offers.len() / OFFER_WIDTH)
}
