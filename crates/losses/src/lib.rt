// A loss shared over the stake rows of one pool: settled first, then written in one pass. A pool's rows are contiguous.
#![tactic(auto)]

mod settle;
mod share;
mod write;

ghost use Rattle.std.specs.Prelude.{◌≡◌};
ghost use Rattle.books.specs.Layout.{stake_width};
ghost use Rattle.books.specs.Tables.{table_of};
ghost use Rattle.books.specs.Words.{stake_row_at};
ghost use Rattle.books.specs.inner.Held.{HeldStakes};
ghost use Rattle.losses.specs.Loss.{Shareable, after, answer, left};

use rules::Refusal;
pub use share::share_of;

// A loss that is settled: the pool, its rows from .. to - 1, the one of them that bears the rest, the amount lost, and the balance.
#[derive(Clone, Copy)]
struct Loss {
    pool: u64,
    from: usize,
    to: usize,
    last: usize,
    amount: u64,
    balance: u64,
}

// Shares `loss` over the stakes of the pool, of which `balance` is the sum, and returns the number of rows then used. Nothing is written
// where a stake would pass its limit; only the last sharer's can, who bears the rest.
pub fn share_loss(
    stakes: &mut [u64],
    used: usize,
    pool: u64,
    loss: u64,
    balance: u64,
) -> Result<usize, Refusal>
    requires held_stakes { HeldStakes stakes.old used }
    requires shareable { Shareable pool loss balance (table_of stake_row_at stake_width stakes.old) }
    ensures value { result ≡ answer (after stakes.old pool loss balance) }
    ensures stakes_after { stakes.new ≡ left stakes.old (after stakes.old pool loss balance) }
{
    let rows = books::pool_rows(stakes, used, pool);
    let settled = Loss {
        pool,
        from: rows.start,
        to: rows.end,
        last: settle::last_sharer(stakes, rows.start, rows.end),
        amount: loss,
        balance,
    };
    if settled.over_limit(stakes) {
        return Err(Refusal::OverLimit);
    }
    Ok(settled.lower(stakes, used))
}
