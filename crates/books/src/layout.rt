// Where each figure lies in the lent words.

// The row of either table begins with its key: the pool, then the number of an account or an offer.
pub const POOL: usize = rows::POOL;

pub const NUMBER: usize = rows::NUMBER;

// A stake row.
pub const STAKE_WIDTH: usize = 5;

pub const STAKE: usize = 2;

pub const SINCE: usize = 3;

pub const ACCRUAL: usize = 4;

// An offer row.
pub const OFFER_WIDTH: usize = 4;

pub const RESERVED: usize = 2;

pub const PAID: usize = 3;

// The books: a balance and an unpaid sum for each of the four pools, then the settings.
pub const POOLS: usize = 4;

pub const BOOKS_LENGTH: usize = 12;

pub type Books = [u64; BOOKS_LENGTH];

pub const BALANCES: usize = 0;

pub const UNPAID: usize = 4;

pub const ADMIN: usize = 8;

pub const CALLER: usize = 9;

pub const PAUSED: usize = 10;

pub const RATE: usize = 11;
