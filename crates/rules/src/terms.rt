// What needs no tables: the terms of a pool, the cap, the yield, banked and as accrued, and risk.
ghost use Rattle.std.specs.Prelude.{◌≡◌, ◌*◌, ◌≤◌, ◌<◌, ◌^◌, pos, ◌+ℤ◌, get_or};
ghost use Rattle.std.specs.Int.{w64};
ghost use Rattle.std.proofs.Common.{to_z};
ghost use Rattle.rules.specs.Terms.{tier_parameters, yield_rate, capped, assess_risk, compute_yield, yield_answer, elapsed, bank_accrued_yield, banked_answer, accrued_sum};
ghost use Rattle.rules.specs.inner.Accrued.{accrued_answer};
ghost use Rattle.rules.specs.Limits.{limit, last_time, greatest_rate, pools, flat};

use crate::Refusal;
use crate::limits::{AGGRESSIVE, FLAT, LIMIT};

const BASIS_POINTS: u64 = 10_000;

const BASIS_POINT_YEAR: u64 = 315_360_000_000;

const RISK_AGE_SECS: u64 = 2_592_000;

const RISK_LARGE_INVOICE_AMOUNT: i64 = 1_000_000_000;

// A tier's yield and payout cap, in basis points.
#[derive(Clone, Copy)]
pub struct TierTerms {
    pub apy: u64,
    pub cap: u64,
}

const TIERS: [TierTerms; FLAT as usize] = [
    TierTerms {
        apy: 200,
        cap: 5_000,
    },
    TierTerms {
        apy: 500,
        cap: 7_500,
    },
    TierTerms {
        apy: 1_000,
        cap: 10_000,
    },
];

// The terms of a tier.
pub fn tier_parameters(tier: usize) -> TierTerms
    requires { tier < flat }
    ensures { (result.apy, result.cap) ≡ get_or tier_parameters tier (0, 0) }
{
    TIERS[tier]
}

// The yield rate of a pool: a tier's own, or the flat pool's, which the admin sets.
pub fn yield_rate(flat: u64, pool: u64) -> u64
    requires { pool < pools }
    ensures { result ≡ yield_rate flat pool }
{
    if pool == FLAT {
        return flat;
    }
    tier_parameters(pool as usize).apy
}

// An amount as a pool's cap leaves it. The product can have more than 64 bits.
pub fn capped_amount(pool: u64, amount: u64) -> u64
    requires { pool < pools }
    ensures { result ≡ capped pool amount }
{
    if pool == FLAT {
        return amount;
    }
    let terms = tier_parameters(pool as usize);
    limbs::mul_div(amount, terms.cap, BASIS_POINTS).map_or(0, |capped| capped.quotient)
}

// principal * rate * elapsed over a year, rounded toward zero, where that has a word. `principal` and the yield are signed words.
pub fn compute_yield(principal: u64, rate: u64, elapsed: u64) -> Option<u64>
    requires { rate * elapsed < 2 ^ 64 }
    ensures { result ≡ yield_answer (compute_yield (to_z w64 principal) rate elapsed) }
{
    limbs::signed_mul_div(principal, rate * elapsed, BASIS_POINT_YEAR).map(|earned| earned.quotient)
}

// Seconds from `since` on, 0 if the clock went back.
fn elapsed_secs(since: u64, time: u64) -> u64
    ensures { result ≡ elapsed since time }
{
    time.saturating_sub(since)
}

// An accrual with the yield of a stake banked at a time, unless it would pass its limit. `stake` is a signed word; a negative one earns nothing.
pub fn bank_accrued_yield(
    rate: u64,
    time: u64,
    stake: u64,
    since: u64,
    accrual: u64,
) -> Result<u64, Refusal>
    requires { (rate ≤ greatest_rate) × (time ≤ last_time) × (accrual ≤ limit) }
    ensures { result ≡ banked_answer (bank_accrued_yield rate time (to_z w64 stake) since accrual) }
{
    if whole::is_negative(stake) {
        return Ok(accrual);
    }
    let Some(earned) = compute_yield(stake, rate, elapsed_secs(since, time)) else {
        return Err(Refusal::OverLimit);
    };
    if LIMIT - accrual < earned {
        return Err(Refusal::OverLimit);
    }
    Ok(accrual + earned)
}

// An accrual and a running yield added up. `running` and the sum are signed words.
fn accrued_with(accrual: u64, running: u64) -> Result<u64, Refusal>
    requires { accrual ≤ limit }
    ensures { result ≡ accrued_answer (pos accrual +ℤ to_z w64 running) }
{
    if whole::less(LIMIT - accrual, running) {
        return Err(Refusal::OverLimit);
    }
    let sum = whole::add(accrual, running);
    if LIMIT < whole::magnitude(sum) {
        return Err(Refusal::OverLimit);
    }
    Ok(sum)
}

// What a stake shows as accrued at a time: its accrual and its running yield, which is negative for a stake below zero. `stake` and the sum are signed words.
pub fn accrued_sum(
    rate: u64,
    time: u64,
    stake: u64,
    since: u64,
    accrual: u64,
) -> Result<u64, Refusal>
    requires { (rate ≤ greatest_rate) × (time ≤ last_time) × (accrual ≤ limit) }
    ensures { result ≡ accrued_answer (accrued_sum rate time (to_z w64 stake) since accrual) }
{
    let seconds = elapsed_secs(since, time);
    match compute_yield(stake, rate, seconds) {
        Some(running) => accrued_with(accrual, running),
        None => Err(Refusal::OverLimit),
    }
}

// The pool for an invoice, by its age, its originator's repayments and defaults, and its amount.
pub fn assess_risk(age: u64, repayments: u32, defaults: u32, amount: i64) -> u64
    ensures { result ≡ assess_risk age repayments defaults amount }
{
    if amount <= 0 {
        return AGGRESSIVE;
    }
    let old = u64::from(RISK_AGE_SECS <= age);
    let failing = u64::from(repayments < defaults);
    let large = u64::from(RISK_LARGE_INVOICE_AMOUNT <= amount);
    AGGRESSIVE.min(old + failing + large)
}
