// Offer rows.
ghost use Rattle.std.specs.Prelude.{◌≡◌};
ghost use Rattle.books.specs.inner.Held.{offer_of, offer_for, HeldOffers};

use crate::layout::{NUMBER, OFFER_WIDTH, PAID, POOL, RESERVED};
use crate::row::{Row, find};
use rows::Key;
use rules::Offer;
use rules::limits::{LAST_POOL, LIMIT};

// An offer row.
#[derive(Clone, Copy)]
pub struct OfferLine {
    pub pool: u64,
    pub offer: u64,
    pub reserved: u64,
    pub paid: u64,
}

impl Row<OFFER_WIDTH> for OfferLine {
    ghost use Rattle.books.specs.inner.Kinds.{offer_kind};
    ghost use Rattle.books.specs.inner.OfferLaws.{offer_laws};

    ghost kind = { offer_kind };

    ghost row = { offer_of };

    ghost laws = { offer_laws };

    fn at(offers: &[u64], i: usize) -> OfferLine {
        OfferLine {
            pool: rows::get(offers, OFFER_WIDTH, i, POOL),
            offer: rows::get(offers, OFFER_WIDTH, i, NUMBER),
            reserved: rows::get(offers, OFFER_WIDTH, i, RESERVED),
            paid: rows::get(offers, OFFER_WIDTH, i, PAID),
        }
    }

    fn empty(pool: u64, offer: u64) -> OfferLine {
        OfferLine {
            pool,
            offer,
            reserved: 0,
            paid: 0,
        }
    }

    fn words(self) -> [u64; OFFER_WIDTH] {
        [self.pool, self.offer, self.reserved, self.paid]
    }

    fn key(self) -> Key {
        Key {
            pool: self.pool,
            number: self.offer,
        }
    }

    fn is_gone(self) -> bool {
        self.reserved == 0
    }

    fn is_in_order(self) -> bool {
        (self.pool <= LAST_POOL)
            & (self.offer != 0)
            & (1 <= self.reserved)
            & (self.reserved <= LIMIT)
            & (self.paid <= self.reserved)
    }

    // A pool's sum is what its rows reserve and have not paid.
    fn added_to(self, sum: u64) -> u64 {
        sum + (self.reserved - self.paid)
    }
}

impl OfferLine {
    // An offer's row in a pool, empty where it has none.
    pub fn of(offers: &[u64], used: usize, pool: u64, offer: Offer) -> OfferLine
        requires { HeldOffers offers.now used }
        ensures { offer_of result ≡ offer_for pool offer offers.now }
    {
        find::<OFFER_WIDTH, OfferLine>(offers, used, pool, offer.0)
    }
}
