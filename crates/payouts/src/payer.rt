// What pay, reserve and claim share: their first tests, and the answer of a payment.
ghost use Rattle.std.specs.Prelude.{◌≡◌, ◌<◌, ◌^◌, pos, Ok};
ghost use Rattle.std.specs.Int.{w64};
ghost use Rattle.std.proofs.Common.{to_z};
ghost use Rattle.whole.specs.Whole.{up};
ghost use Rattle.rules.specs.Answers.{answer_of, done, no_transfer, transfer_out};
ghost use Rattle.payouts.specs.inner.Openings.{coded, opening, settings_alone};

use books::Books;
use rules::limits::LIMIT;
use rules::{Account, Direction, Done, Refusal, Transfer};

// What each of the three begins with: the amount, unless one of the first tests refuses.
#[tactic(auto, unfolding(crate::specs::inner::Openings::caller_code, rules::specs::Answers::not_by, books::specs::Words::books_of))]
pub fn open_call(books: &Books, signer: Account, amount: i64) -> Result<u64, Refusal>
    ensures { coded result ≡ opening (settings_alone books.now) signer amount }
{
    if books::is_paused(books) {
        return Err(Refusal::Paused);
    }
    let caller = books::payout_caller(books);
    if caller == Account(0) {
        return Err(Refusal::NoPayer);
    }
    if signer != caller {
        return Err(Refusal::NotAllowed);
    }
    if amount <= 0 {
        return Err(Refusal::InvalidInput);
    }
    let amount = amount as u64;
    if LIMIT < amount {
        return Err(Refusal::OverLimit);
    }
    Ok(amount)
}

// A signed word where it is above 0, and 0 elsewhere.
pub fn positive_part(word: u64) -> u64
    ensures { result ≡ up (to_z w64 word) }
{
    if whole::is_negative(word) {
        return 0;
    }
    word
}

// The answer of a call that pays `amount`, with what is left.
pub fn paid_to(account: Account, amount: u64, left: u64) -> Done
    requires { (amount < 2 ^ 63) × (left < 2 ^ 63) }
    ensures { answer_of (Ok result) ≡ done (pos amount) (pos left) (transfer_out account amount) no_transfer }
{
    let payment = Transfer {
        direction: Direction::Out,
        account,
        amount,
    };
    Done::new(amount, left, Some(payment), None)
}
