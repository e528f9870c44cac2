// Where the rows of a pool lie.
ghost use Rattle.std.specs.Prelude.{◌<◌};
ghost use Rattle.books.specs.Layout.{pools};
ghost use Rattle.books.specs.inner.Held.{HeldStakes};
ghost use Rattle.books.specs.inner.Pool.{PoolStart, PoolAt};

use crate::layout::STAKE_WIDTH;
use rows::Key;
use std::ops::Range;

// The first row of a pool, or where it would be. No account is 0, so it is the place of account 0.
pub fn pool_start(stakes: &[u64], used: usize, pool: u64) -> usize
    requires { HeldStakes stakes.now used }
    ensures { PoolStart stakes.now used pool result }
{
    match rows::place_of(stakes, STAKE_WIDTH, used, Key { pool, number: 0 }) {
        Ok(i) | Err(i) => i,
    }
}

// The rows of a pool: they end where the next pool would start.
pub fn pool_rows(stakes: &[u64], used: usize, pool: u64) -> Range<usize>
    requires held_stakes { HeldStakes stakes.now used }
    requires pool_lt_pools { pool < pools }
    ensures { PoolAt stakes.now used pool result.start result.end }
{
    pool_start(stakes, used, pool)..pool_start(stakes, used, pool + 1)
}
