// What the admin's operations share: their first tests, and their answer.
ghost use Rattle.std.specs.Prelude.{◌≡◌, not, cond, eqb, pos, get_or};
ghost use Rattle.rules.specs.Calls.{account_no};
ghost use Rattle.rules.specs.Answers.{answer_of, done, no_transfer, not_by, told_code, NotAllowed};
ghost use Rattle.books.specs.Layout.{admin_word, paused_word};
ghost use Rattle.settings.specs.inner.Admin.{admin_code};

use books::Books;
use rules::{Account, Answer, Done, Refusal};

// Refuses a signer who is not the admin.
#[tactic(auto, unfolding(rules::specs::Answers::not_by))]
pub fn by_admin(books: &Books, signer: Account) -> Result<(), Refusal>
    ensures { told_code result ≡ cond (not_by (account_no (get_or books.now admin_word 0)) signer) NotAllowed 0 }
{
    if signer != books::admin(books) {
        return Err(Refusal::NotAllowed);
    }
    Ok(())
}

// The same of an operation that a pause stops.
pub fn as_admin(books: &Books, signer: Account) -> Result<(), Refusal>
    ensures { told_code result ≡ admin_code (not (eqb (get_or books.now paused_word 0) 0)) (not_by (account_no (get_or books.now admin_word 0)) signer) }
{
    if books::is_paused(books) {
        return Err(Refusal::Paused);
    }
    by_admin(books, signer)
}

// The answer of a setting that is stored.
pub fn stored() -> Answer
    ensures { answer_of result ≡ done (pos 0) (pos 0) no_transfer no_transfer }
{
    Ok(Done::new(0, 0, None, None))
}
