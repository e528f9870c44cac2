// The accrual of a stake row, with its yield banked.
ghost use Rattle.std.specs.Prelude.{◌≡◌, get_or};
ghost use Rattle.std.specs.Int.{w64};
ghost use Rattle.std.proofs.Common.{to_z};
ghost use Rattle.rules.specs.Terms.{yield_rate, bank_accrued_yield, banked_answer};
ghost use Rattle.books.specs.Layout.{rate_word};
ghost use Rattle.books.specs.inner.Banking.{Bankable};

use crate::layout::Books;
use crate::stakes::Stake;
use rules::Refusal;

// A row's accrual banked at a time, at its pool's rate, unless it would pass its limit.
pub fn banked_of(books: &Books, row: Stake, pool: u64, time: u64) -> Result<u64, Refusal>
    requires { Bankable books.now pool time row.accrual }
    ensures { result ≡ banked_answer (bank_accrued_yield (yield_rate (get_or books.now rate_word 0) pool) time (to_z w64 row.stake) row.since row.accrual) }
{
    let rate = rules::yield_rate(crate::figures::rate(books), pool);
    rules::bank_accrued_yield(rate, time, row.stake, row.since, row.accrual)
}
