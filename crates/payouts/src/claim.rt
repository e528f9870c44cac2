// Claim: a payment on an offer's cover.
ghost use Rattle.std.specs.Prelude.{◌≡◌, true};
ghost use Rattle.whole.specs.Whole.{up};
ghost use Rattle.rules.specs.Answers.{answer_of};
ghost use Rattle.rules.specs.Payouts.{claim_payout};
ghost use Rattle.books.specs.Words.{tables, books_of, good_tables, result_of, acted};
ghost use Rattle.payouts.specs.Payouts.{ClaimAsked};
ghost use Rattle.payouts.specs.inner.Amounts.{Claimable, claimable_of};
ghost use Rattle.payouts.specs.inner.Openings.{coded};
ghost use Rattle.payouts.specs.inner.Settled.{claim_settled};

use crate::loss::take_loss;
use crate::offer::{OfferChange, OfferState, find_offer, write_offer};
use crate::payer::{open_call, paid_to, positive_part};
use books::{Books, OfferLine};
use rules::limits::FLAT;
use rules::{Account, Answer, ClaimCall, Done, Refusal};

// What a claim of `amount` may take of a cover.
fn claimable(books: &Books, pool: u64, amount: u64, cover: u64) -> u64
    requires { Claimable books.now pool amount cover }
    ensures { result ≡ up (claimable_of books.now pool amount cover) }
{
    let least = whole::lesser(amount, cover);
    let balance = books::balance(books, pool);
    if pool == FLAT {
        let others = books::unpaid(books, pool) - cover;
        return positive_part(whole::lesser(least, whole::sub(balance, others)));
    }
    positive_part(whole::lesser(least, balance))
}

// What a claim comes to before anything is written: the offer as a payment leaves it, or with nothing paid.
#[tactic(auto, using(crate::proofs::OfferWrites::searchable, crate::proofs::Claims::covered, crate::proofs::Claims::no_cover, crate::proofs::Claims::settles))]
fn settle_claim(
    stakes: &[u64],
    offers: &[u64],
    books: &Books,
    signer: Account,
    c: ClaimCall,
) -> Result<OfferChange, Refusal>
    requires books_value { good_tables (tables stakes.now offers.now books.now) ≡ true }
    requires claim_asked { ClaimAsked c }
    ensures { coded result ≡ claim_settled (tables stakes.now offers.now books.now) signer c }
{
    let amount = open_call(books, signer, c.amount)?;
    let old = find_offer(offers, books, c.pool, c.offer);
    let cover = old.cover();
    if cover == 0 {
        return Err(Refusal::InsufficientBalance);
    }
    let paid = claimable(books, c.pool, amount, cover);
    let row = OfferLine {
        paid: old.row.paid + paid,
        ..old.row
    };
    let unpaid = old.unpaid - paid;
    Ok(OfferChange {
        amount: paid,
        offer: OfferState { row, unpaid, ..old },
    })
}

// Pays a lender on an offer's cover, at the loss of the pool's stakes.
pub fn claim_payout(
    stakes: &mut [u64],
    offers: &mut [u64],
    books: &mut Books,
    signer: Account,
    c: ClaimCall,
) -> Answer
    requires books_value { good_tables (tables stakes.old offers.old books.old) ≡ true }
    requires claim_asked { ClaimAsked c }
    ensures { result_of (answer_of result) (tables stakes.new offers.new books.new) ≡ acted (tables stakes.old offers.old books.old) (claim_payout (books_of (tables stakes.old offers.old books.old)) signer c) }
{
    let OfferChange { amount, offer } = settle_claim(stakes, offers, books, signer, c)?;
    let left = offer.cover();
    if amount == 0 {
        return Ok(Done::new(0, left, None, None));
    }
    take_loss(stakes, offers, books, c.pool, amount)?;
    write_offer(stakes, offers, books, offer);
    Ok(paid_to(c.lender, amount, left))
}
