// Where a row is or would be, on any words, and how many rows were read to tell it.
ghost use Rattle.std.specs.Prelude.{◌≡◌, ◌<◌};
ghost use Rattle.rows.specs.Rows.{key_of};
ghost use Rattle.rows.specs.Lookup.{lookup};
ghost use Rattle.books.specs.Tables.{used_of};
ghost use Rattle.queries.specs.Queries.{words_seen};
ghost use Rattle.books.specs.inner.Held.{Table};
ghost use Rattle.queries.specs.Lookups.{lookup_answer, stake_lookup, offer_lookup};

use crate::View;
use books::layout::{OFFER_WIDTH, STAKE_WIDTH};
use rows::{Key, Lookup};
use rules::{Account, Offer, Refusal, is_key};

// In one table, among its used rows.
fn look_up(table: &[u64], width: usize, key: Key) -> Lookup
    requires lt_width { 1 < width }
    requires table { Table width table.now (used_of width table.now) }
    ensures { result ≡ lookup table.now width (used_of width table.now) (key_of key.pool key.number) }
{
    let used = rows::used_rows(table, width);
    rows::find(table, width, used, key)
}

impl View<'_> {
    // An account's stake row in a pool. Accounts and offers have a function each, so that neither is looked up in the other's table.
    pub fn look_up_stake(self, pool: u64, account: Account) -> Result<Lookup, Refusal>
        ensures { lookup_answer result ≡ stake_lookup (words_seen self.entry) pool account }
    {
        self.gate(is_key(pool, account.0))?;
        let key = Key {
            pool,
            number: account.0,
        };
        Ok(look_up(self.stakes, STAKE_WIDTH, key))
    }

    // An offer's row in a pool.
    pub fn look_up_offer(self, pool: u64, offer: Offer) -> Result<Lookup, Refusal>
        ensures { lookup_answer result ≡ offer_lookup (words_seen self.entry) pool offer }
    {
        self.gate(is_key(pool, offer.0))?;
        let key = Key {
            pool,
            number: offer.0,
        };
        Ok(look_up(self.offers, OFFER_WIDTH, key))
    }
}
