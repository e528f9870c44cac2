// What reserve and claim share: an offer as the tables hold it, found once and written back.
ghost use Rattle.std.specs.Prelude.{◌≡◌, ◌≤◌};
ghost use Rattle.rules.specs.Books.{cover};
ghost use Rattle.books.specs.Words.{tables, books_of, words_of};
ghost use Rattle.books.specs.inner.Held.{offer_of};
ghost use Rattle.payouts.specs.inner.Offers.{Searchable, found_in, CanWriteOffer, offer_written};

use books::{Books, OfferLine, Row};
use rules::Offer;

// An offer's row, the number of rows in use, and the unpaid sum of its pool.
#[derive(Clone, Copy)]
pub struct OfferState {
    pub used: usize,
    pub row: OfferLine,
    pub unpaid: u64,
}

// An offer as a grant or a payment of `amount` leaves it.
#[derive(Clone, Copy)]
pub struct OfferChange {
    pub amount: u64,
    pub offer: OfferState,
}

impl OfferState {
    // What is reserved and not yet paid.
    pub fn cover(self) -> u64
        requires { self.row.paid ≤ self.row.reserved }
        ensures { result ≡ cover (offer_of self.row) }
    {
        self.row.reserved - self.row.paid
    }
}

// An offer in a pool, with an empty row where it has none.
pub fn find_offer(offers: &[u64], books: &Books, pool: u64, offer: Offer) -> OfferState
    requires { Searchable offers.now books.now pool }
    ensures { result ≡ found_in offers.now books.now pool offer }
{
    let used = OfferLine::used_in(offers);
    OfferState {
        used,
        row: OfferLine::of(offers, used, pool, offer),
        unpaid: books::unpaid(books, pool),
    }
}

// Writes an offer's row, and the unpaid sum of its pool.
pub fn write_offer(stakes: &[u64], offers: &mut [u64], books: &mut Books, offer: OfferState)
    requires { CanWriteOffer (tables stakes.now offers.old books.old) offer }
    ensures { tables stakes.now offers.new books.new ≡ words_of (offer_written (books_of (tables stakes.now offers.old books.old)) offer) }
{
    books::set_unpaid(books, offer.row.pool, offer.unpaid);
    offer.row.put(offers, offer.used);
}
