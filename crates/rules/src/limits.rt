// The limits of document 01.

pub const MOST_STAKES: usize = 1_024;

pub const MOST_OFFERS: usize = 512;

// The pool that the riskiest invoices go to.
pub const AGGRESSIVE: u64 = 2;

// The pool without a cap, whose rate is set and whose withdrawals work while paused.
pub const FLAT: u64 = 3;

pub const LAST_POOL: u64 = FLAT;

pub const LAST_TIME: u64 = 17_179_869_183;

// The greatest amount, stake (up or down), accrual and reserved sum.
pub const LIMIT: u64 = 1_000_000_000_000_000;

pub const MIN_STAKE_AMOUNT: u64 = 1_000_000;

pub const GREATEST_RATE: u64 = 1_000_000;
