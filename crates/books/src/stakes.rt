// Stake rows.
ghost use Rattle.std.specs.Prelude.{◌≡◌};
ghost use Rattle.rules.specs.Sharing.{sharer};
ghost use Rattle.books.specs.inner.Held.{stake_of, stake_for, HeldStakes};

use crate::layout::{ACCRUAL, NUMBER, POOL, SINCE, STAKE, STAKE_WIDTH};
use crate::row::{Row, find};
use rows::Key;
use rules::Account;
use rules::limits::{LAST_POOL, LAST_TIME, LIMIT};

// A stake row. `stake` is a signed word.
#[derive(Clone, Copy)]
pub struct Stake {
    pub pool: u64,
    pub account: u64,
    pub stake: u64,
    pub since: u64,
    pub accrual: u64,
}

impl Row<STAKE_WIDTH> for Stake {
    ghost use Rattle.books.specs.inner.Kinds.{stake_kind};
    ghost use Rattle.books.specs.inner.StakeLaws.{stake_laws};

    ghost kind = { stake_kind };

    ghost row = { stake_of };

    ghost laws = { stake_laws };

    fn at(stakes: &[u64], i: usize) -> Stake {
        Stake {
            pool: rows::get(stakes, STAKE_WIDTH, i, POOL),
            account: rows::get(stakes, STAKE_WIDTH, i, NUMBER),
            stake: rows::get(stakes, STAKE_WIDTH, i, STAKE),
            since: rows::get(stakes, STAKE_WIDTH, i, SINCE),
            accrual: rows::get(stakes, STAKE_WIDTH, i, ACCRUAL),
        }
    }

    fn empty(pool: u64, account: u64) -> Stake {
        Stake {
            pool,
            account,
            stake: 0,
            since: 0,
            accrual: 0,
        }
    }

    fn words(self) -> [u64; STAKE_WIDTH] {
        let Stake {
            pool,
            account,
            stake,
            since,
            accrual,
        } = self;
        [pool, account, stake, since, accrual]
    }

    fn key(self) -> Key {
        Key {
            pool: self.pool,
            number: self.account,
        }
    }

    fn is_gone(self) -> bool {
        (self.stake == 0) & (self.accrual == 0)
    }

    fn is_in_order(self) -> bool {
        (self.pool <= LAST_POOL)
            & (self.account != 0)
            & !self.is_gone()
            & ((self.stake != 0) | (self.since == 0))
            & (self.since <= LAST_TIME)
            & (whole::magnitude(self.stake) <= LIMIT)
            & (self.accrual <= LIMIT)
    }

    // A pool's sum is a signed word.
    fn added_to(self, sum: u64) -> u64 {
        whole::add(sum, self.stake)
    }
}

impl Stake {
    // An account's row in a pool, empty where it has none.
    pub fn of(stakes: &[u64], used: usize, pool: u64, account: Account) -> Stake
        requires { HeldStakes stakes.now used }
        ensures { stake_of result ≡ stake_for pool account stakes.now }
    {
        find::<STAKE_WIDTH, Stake>(stakes, used, pool, account.0)
    }

    // Whether a row is of the pool, with a stake.
    pub fn is_sharer(self, pool: u64) -> bool
        ensures { result ≡ sharer pool (stake_of self) }
    {
        (self.pool == pool) & (self.stake != 0)
    }
}
