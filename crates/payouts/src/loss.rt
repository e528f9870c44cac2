// What pay and claim write alike: a loss of a pool.
ghost use Rattle.rules.specs.Answers.{told_code};
ghost use Rattle.books.specs.Words.{tables};
ghost use Rattle.payouts.specs.inner.Losses.{CanLose, LossTaken};

use books::{Books, Row, Stake};
use rules::Refusal;

// A pool's stakes and its balance lose `loss`, unless a stake would pass its limit: then nothing is written.
pub fn take_loss(
    stakes: &mut [u64],
    offers: &[u64],
    books: &mut Books,
    pool: u64,
    loss: u64,
) -> Result<(), Refusal>
    requires { CanLose (tables stakes.old offers.now books.old) pool loss }
    ensures { LossTaken (tables stakes.old offers.now books.old) (tables stakes.new offers.now books.new) pool loss (told_code result) }
{
    let used = Stake::used_in(stakes);
    let balance = books::balance(books, pool);
    losses::share_loss(stakes, used, pool, loss, balance)?;
    books::set_balance(books, pool, balance - loss);
    Ok(())
}
