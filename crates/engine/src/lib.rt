// A call on lent words: `apply` takes any words and tests them, `act` runs on words that are known to be good, as a replay's are.
#![tactic(auto)]

ghost use Rattle.std.specs.Prelude.{◌≡◌, true, false, cond};
ghost use Rattle.rules.specs.Answers.{answer_of, told_code, Malformed};
ghost use Rattle.rules.specs.Step.{malformed, plan_of};
ghost use Rattle.books.specs.Words.{tables, books_of, good_tables, result_of, acted, step_words};

use books::Books;
use books::layout::BOOKS_LENGTH;
use rules::{Answer, Call, Operation, Refusal};

// Refuses a call whose own fields miss what they must meet.
fn check_fields(call: Call) -> Result<(), Refusal>
    ensures { told_code result ≡ cond (malformed call) Malformed 0 }
{
    if rules::is_malformed(call) {
        return Err(Refusal::Malformed);
    }
    Ok(())
}

// The operation of a call that is not malformed.
#[tactic(auto, using(crate::proofs::Asked::asked))]
fn operate(stakes: &mut [u64], offers: &mut [u64], books: &mut Books, call: Call) -> Answer
    requires books_value { good_tables (tables stakes.old offers.old books.old) ≡ true }
    requires formed { malformed call ≡ false }
    ensures { result_of (answer_of result) (tables stakes.new offers.new books.new) ≡ acted (tables stakes.old offers.old books.old) (plan_of (books_of (tables stakes.old offers.old books.old)) call.now call.signer call.operation) }
{
    let Call {
        now: time,
        signer,
        operation,
    } = call;
    match operation {
        Operation::Stake(c) => stakes::stake(stakes, offers, books, time, signer, c),
        Operation::Withdraw(c) => stakes::unstake(stakes, offers, books, time, signer, c),
        Operation::Pay(c) => payouts::pay_out(stakes, offers, books, signer, c),
        Operation::Reserve(c) => payouts::reserve_payout(stakes, offers, books, signer, c),
        Operation::Claim(c) => payouts::claim_payout(stakes, offers, books, signer, c),
        Operation::Rate(c) => settings::set_yield_rate(stakes, offers, books, time, signer, c),
        Operation::Pause => settings::set_paused(stakes, offers, books, signer, true),
        Operation::Unpause => settings::set_paused(stakes, offers, books, signer, false),
        Operation::PayoutCaller(caller) => settings::set_payout_caller(
            stakes, offers, books, signer, caller,
        ),
        Operation::Unknown => Err(Refusal::Malformed),
    }
}

// A call on words that are known to be good: they are not tested.
#[tactic(auto, unfolding(books::specs::Words::step_words))]
pub fn act(stakes: &mut [u64], offers: &mut [u64], books: &mut Books, call: Call) -> Answer
    requires { good_tables (tables stakes.old offers.old books.old) ≡ true }
    ensures { result_of (answer_of result) (tables stakes.new offers.new books.new) ≡ step_words (tables stakes.old offers.old books.old) call }
{
    check_fields(call)?;
    operate(stakes, offers, books, call)
}

// Any call on any words.
#[tactic(auto, unfolding(books::specs::Words::step_words))]
pub fn apply(stakes: &mut [u64], offers: &mut [u64], books: &mut [u64], call: Call) -> Answer
    ensures { result_of (answer_of result) (tables stakes.new offers.new books.new) ≡ step_words (tables stakes.old offers.old books.old) call }
{
    check_fields(call)?;
    let Some(books) = books.as_mut_array::<BOOKS_LENGTH>() else {
        return Err(Refusal::BadTables);
    };
    if !books::tables_well_formed(stakes, offers, books) {
        return Err(Refusal::BadTables);
    }
    operate(stakes, offers, books, call)
}
