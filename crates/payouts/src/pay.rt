// Pay: a defaulted invoice paid out of a pool.
ghost use Rattle.std.specs.Prelude.{◌≡◌, true};
ghost use Rattle.whole.specs.Whole.{up};
ghost use Rattle.rules.specs.Answers.{answer_of, told_code};
ghost use Rattle.rules.specs.Payouts.{pay_out};
ghost use Rattle.books.specs.Words.{tables, books_of, good_tables, result_of, acted};
ghost use Rattle.payouts.specs.Payouts.{PayAsked};
ghost use Rattle.payouts.specs.inner.Amounts.{Payable, payable_of};
ghost use Rattle.payouts.specs.inner.Openings.{coded};
ghost use Rattle.payouts.specs.inner.Settled.{reply_code, pay_settled};

use crate::loss::take_loss;
use crate::payer::{open_call, paid_to, positive_part};
use books::Books;
use rules::{Account, Answer, Done, PayCall, Refusal};

// The registry's replies to which nothing is paid.
const NOT_CONFIGURED: u64 = 0;

const NOT_DEFAULTED: u64 = 1;

fn check_reply(reply: u64) -> Result<(), Refusal>
    ensures { told_code result ≡ reply_code reply }
{
    match reply {
        NOT_CONFIGURED => Err(Refusal::NoRegistry),
        NOT_DEFAULTED => Err(Refusal::InvalidTransition),
        _ => Ok(()),
    }
}

// What a call for an amount may be paid: at most what the pool's cap and its balance let.
fn payable(books: &Books, pool: u64, amount: u64) -> u64
    requires { Payable books.now pool amount }
    ensures { result ≡ up (payable_of books.now pool amount) }
{
    let balance = books::balance(books, pool);
    positive_part(whole::lesser(rules::capped_amount(pool, amount), balance))
}

// What a call comes to before anything is written: the amount that is paid, if any.
#[tactic(auto, using(crate::proofs::Payments::figures, crate::proofs::Payments::settles))]
fn settle_pay(
    stakes: &[u64],
    offers: &[u64],
    books: &Books,
    signer: Account,
    c: PayCall,
) -> Result<Option<u64>, Refusal>
    requires books_value { good_tables (tables stakes.now offers.now books.now) ≡ true }
    requires pay_asked { PayAsked c }
    ensures { coded result ≡ pay_settled (tables stakes.now offers.now books.now) signer c }
{
    let amount = open_call(books, signer, c.amount)?;
    check_reply(c.reply)?;
    let paid = payable(books, c.pool, amount);
    Ok((paid != 0).then_some(paid))
}

// Pays a beneficiary at the loss of the pool's stakes. Reservations don't count.
pub fn pay_out(
    stakes: &mut [u64],
    offers: &[u64],
    books: &mut Books,
    signer: Account,
    c: PayCall,
) -> Answer
    requires books_value { good_tables (tables stakes.old offers.now books.old) ≡ true }
    requires pay_asked { PayAsked c }
    ensures { result_of (answer_of result) (tables stakes.new offers.now books.new) ≡ acted (tables stakes.old offers.now books.old) (pay_out (books_of (tables stakes.old offers.now books.old)) signer c) }
{
    let Some(amount) = settle_pay(stakes, offers, books, signer, c)? else {
        return Ok(Done::new(0, 0, None, None));
    };
    take_loss(stakes, offers, books, c.pool, amount)?;
    Ok(paid_to(c.beneficiary, amount, 0))
}
