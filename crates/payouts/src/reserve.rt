// Reserve: cover granted to an offer.
ghost use Rattle.std.specs.Prelude.{◌≡◌, true, ◌&&◌, ◌≤◌, eqb, leb};
ghost use Rattle.std.specs.Int.{w64};
ghost use Rattle.std.proofs.Common.{to_z};
ghost use Rattle.whole.specs.Whole.{up};
ghost use Rattle.rules.specs.Limits.{limit, flat};
ghost use Rattle.rules.specs.Answers.{answer_of};
ghost use Rattle.rules.specs.Payouts.{reserve_payout};
ghost use Rattle.books.specs.Layout.{offer_width};
ghost use Rattle.books.specs.Tables.{room_of};
ghost use Rattle.books.specs.Words.{tables, books_of, good_tables, result_of, acted};
ghost use Rattle.payouts.specs.Payouts.{ReserveAsked};
ghost use Rattle.payouts.specs.inner.Amounts.{Grantable, wanted_of, grantable_of};
ghost use Rattle.payouts.specs.inner.Openings.{coded};
ghost use Rattle.payouts.specs.inner.Settled.{reserve_settled};

use crate::offer::{OfferChange, OfferState, find_offer, write_offer};
use crate::payer::{open_call, positive_part};
use books::layout::OFFER_WIDTH;
use books::{Books, OfferLine, Row};
use rules::limits::{FLAT, LIMIT};
use rules::{Account, Answer, Done, Refusal, ReserveCall};

// What an offer that was granted some cover may have more, whatever the balance: a signed word.
fn wanted(pool: u64, amount: u64, granted: u64) -> u64
    requires { (pool ≤ flat) × (amount ≤ limit) × (granted ≤ limit) }
    ensures { to_z w64 result ≡ wanted_of pool amount granted }
{
    if pool == FLAT {
        return amount;
    }
    whole::sub(rules::capped_amount(pool, amount), granted)
}

// And at most what the balance has over all that is reserved; 0 where that is below 0.
fn grantable(books: &Books, pool: u64, amount: u64, granted: u64) -> u64
    requires { Grantable books.now pool amount granted }
    ensures { result ≡ up (grantable_of books.now pool amount granted) }
{
    let room = whole::sub(books::balance(books, pool), books::unpaid(books, pool));
    positive_part(whole::lesser(wanted(pool, amount, granted), room))
}

// Whether a row must be added and none is free. A row is there where something was ever reserved.
fn no_row(offers: &[u64], old: OfferState) -> bool
    ensures { result ≡ (eqb old.row.reserved 0 && leb (room_of offer_width offers.now) old.used) }
{
    old.row.is_gone() && offers.len() / OFFER_WIDTH <= old.used
}

// What a call comes to before anything is written: the offer as a grant leaves it, if there is one.
#[tactic(auto, using(crate::proofs::OfferWrites::searchable, crate::proofs::Grants::most, crate::proofs::Grants::nothing))]
fn settle_reserve(
    stakes: &[u64],
    offers: &[u64],
    books: &Books,
    signer: Account,
    c: ReserveCall,
) -> Result<Option<OfferChange>, Refusal>
    requires books_value { good_tables (tables stakes.now offers.now books.now) ≡ true }
    requires reserve_asked { ReserveAsked c }
    ensures { coded result ≡ reserve_settled (tables stakes.now offers.now books.now) signer c }
{
    let amount = open_call(books, signer, c.amount)?;
    let old = find_offer(offers, books, c.pool, c.offer);
    let granted = grantable(books, c.pool, amount, old.row.reserved);
    if granted == 0 {
        return Ok(None);
    }
    if LIMIT - old.row.reserved < granted {
        return Err(Refusal::OverLimit);
    }
    if no_row(offers, old) {
        return Err(Refusal::TableFull);
    }
    let row = OfferLine {
        reserved: old.row.reserved + granted,
        ..old.row
    };
    let unpaid = old.unpaid + granted;
    Ok(Some(OfferChange {
        amount: granted,
        offer: OfferState { row, unpaid, ..old },
    }))
}

// Grants an offer cover of the pool's balance.
pub fn reserve_payout(
    stakes: &[u64],
    offers: &mut [u64],
    books: &mut Books,
    signer: Account,
    c: ReserveCall,
) -> Answer
    requires books_value { good_tables (tables stakes.now offers.old books.old) ≡ true }
    requires reserve_asked { ReserveAsked c }
    ensures { result_of (answer_of result) (tables stakes.now offers.new books.new) ≡ acted (tables stakes.now offers.old books.old) (reserve_payout (books_of (tables stakes.now offers.old books.old)) signer c) }
{
    let Some(grant) = settle_reserve(stakes, offers, books, signer, c)? else {
        return Ok(Done::new(0, 0, None, None));
    };
    write_offer(stakes, offers, books, grant.offer);
    Ok(Done::new(grant.amount, 0, None, None))
}
