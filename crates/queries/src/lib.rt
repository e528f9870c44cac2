// The queries and lookups, on any words: an answer, and nothing is written. Malformed arguments are told first, then tables that are not well formed.
#![tactic(auto)]

mod asking;
mod lookups;

ghost use Rattle.std.specs.Prelude.{◌≡◌, ◌*◌, ◌≤◌, ◌<◌, ◌^◌, pos, length, IfOk};
ghost use Rattle.std.specs.Int.{w64};
ghost use Rattle.std.proofs.Common.{to_z};
ghost use Rattle.rules.specs.Answers.{answer_of, told_code};
ghost use Rattle.rules.specs.Table.{count};
ghost use Rattle.rules.specs.Sharing.{sharer};
ghost use Rattle.rules.specs.Queries.{told, get_stake, accrued_yield, get_pool, get_stakers_count, get_offer};
ghost use Rattle.books.specs.Layout.{stake_width};
ghost use Rattle.books.specs.Tables.{rows_from};
ghost use Rattle.books.specs.Words.{books_of, stake_row_at};
ghost use Rattle.queries.specs.inner.Gate.{gate_code};
ghost use Rattle.queries.specs.Queries.{words_seen, query_words};

use books::layout::BOOKS_LENGTH;
use books::{Books, OfferLine, Row, Stake};
use rules::{Account, Answer, Done, Offer, Refusal, is_key, is_pool, is_time};

// The three slices of words that a caller lends, of which a query only reads.
#[derive(Clone, Copy)]
pub struct View<'a> {
    pub stakes: &'a [u64],
    pub offers: &'a [u64],
    pub books: &'a [u64],
}

// Two numbers and no transfer. `first` is a signed word.
fn tell(first: u64, second: u64) -> Answer
    requires { second < 2 ^ 63 }
    ensures { answer_of result ≡ told (to_z w64 first) (pos second) }
{
    Ok(Done {
        first: whole::of_word(first),
        second: second as i64,
        one: None,
        two: None,
    })
}

// How many of the used rows are of the pool, with a stake.
fn sharers_among(stakes: &[u64], used: usize, pool: u64) -> u64
    requires { used * stake_width ≤ length stakes.now }
    ensures { result ≡ count (sharer pool) (rows_from stake_row_at stakes.now 0 used) }
{
    (0..used)
        .filter(|i| Stake::at(stakes, *i).is_sharer(pool))
        .count() as u64
}

impl<'a> View<'a> {
    // Refuses a question before it is answered: where its fields do not meet their needs, or the tables are not well formed.
    // Answers the books, whose length is known then.
    fn gate(self, fields: bool) -> Result<&'a Books, Refusal>
        ensures code { told_code result ≡ gate_code (words_seen self.entry) fields }
        ensures books { IfOk result (λ books. books.now ≡ self.entry.books.now) }
    {
        if !fields {
            return Err(Refusal::Malformed);
        }
        let Some(books) = self.books.as_array::<BOOKS_LENGTH>() else {
            return Err(Refusal::BadTables);
        };
        if !books::tables_well_formed(self.stakes, self.offers, books) {
            return Err(Refusal::BadTables);
        }
        Ok(books)
    }

    // An account's stake in a pool.
    pub fn get_stake(self, pool: u64, account: Account) -> Answer
        ensures { answer_of result ≡ query_words (words_seen self.entry) (get_stake (books_of (words_seen self.entry)) pool account) }
    {
        self.gate(is_key(pool, account.0))?;
        let used = Stake::used_in(self.stakes);
        let row = Stake::of(self.stakes, used, pool, account);
        tell(row.stake, 0)
    }

    // An account's accrued yield in a pool at a time: banked and running together, signed.
    pub fn accrued_yield(self, time: u64, pool: u64, account: Account) -> Answer
        ensures { answer_of result ≡ query_words (words_seen self.entry) (accrued_yield (books_of (words_seen self.entry)) time pool account) }
    {
        let books = self.gate(is_time(time) & is_key(pool, account.0))?;
        let used = Stake::used_in(self.stakes);
        let row = Stake::of(self.stakes, used, pool, account);
        let rate = rules::yield_rate(books::rate(books), pool);
        let sum = rules::accrued_sum(rate, time, row.stake, row.since, row.accrual)?;
        tell(sum, 0)
    }

    // A pool's balance and its unpaid reserved sum.
    pub fn get_pool(self, pool: u64) -> Answer
        ensures { answer_of result ≡ query_words (words_seen self.entry) (get_pool (books_of (words_seen self.entry)) pool) }
    {
        let books = self.gate(is_pool(pool))?;
        let balance = books::balance(books, pool);
        let unpaid = books::unpaid(books, pool);
        tell(balance, unpaid)
    }

    // The stakers' count of a pool.
    pub fn get_stakers_count(self, pool: u64) -> Answer
        ensures { answer_of result ≡ query_words (words_seen self.entry) (get_stakers_count (books_of (words_seen self.entry)) pool) }
    {
        self.gate(is_pool(pool))?;
        let used = Stake::used_in(self.stakes);
        let n = sharers_among(self.stakes, used, pool);
        tell(n, 0)
    }

    // What is reserved for an offer in a pool, and what of it is paid.
    pub fn get_offer(self, pool: u64, offer: Offer) -> Answer
        ensures { answer_of result ≡ query_words (words_seen self.entry) (get_offer (books_of (words_seen self.entry)) pool offer) }
    {
        self.gate(is_key(pool, offer.0))?;
        let used = OfferLine::used_in(self.offers);
        let row = OfferLine::of(self.offers, used, pool, offer);
        tell(row.reserved, row.paid)
    }
}
