// The declared types that the rules (specs/) speak of: calls, operations, answers and refusals; document 01's limits; and the rules that
// need no tables (terms.rt).
// Accounts, offers and invoices are different kinds of number, so that none can stand for another.
#![tactic(auto)]

mod answers;
mod fields;
pub mod limits;
mod malformed;
mod refusal;
mod terms;

pub use answers::{Answer, Direction, Done, Transfer};
pub use fields::{is_key, is_pool, is_time};
pub use malformed::is_malformed;
pub use refusal::Refusal;
pub use terms::{
    TierTerms, accrued_sum, assess_risk, bank_accrued_yield, capped_amount, compute_yield,
    tier_parameters, yield_rate,
};

#[derive(Clone, Copy, Debug, PartialEq, Eq)]
pub struct Account(pub u64);

#[derive(Clone, Copy, Debug, PartialEq, Eq)]
pub struct Offer(pub u64);

#[derive(Clone, Copy, Debug, PartialEq, Eq)]
pub struct Invoice(pub u64);

// Stake and withdraw.
#[derive(Clone, Copy)]
pub struct StakeCall {
    pub pool: u64,
    pub staker: Account,
    pub amount: i64,
}

// Reply: the registry's, 0 not configured, 1 not Defaulted, 2 Defaulted. A call may carry any reply and any pool, and is malformed where there is none such:
// the laws speak of these calls too, so both are numbers.
#[derive(Clone, Copy)]
pub struct PayCall {
    pub pool: u64,
    pub reply: u64,
    pub invoice: Invoice,
    pub beneficiary: Account,
    pub amount: i64,
}

#[derive(Clone, Copy)]
pub struct ReserveCall {
    pub pool: u64,
    pub offer: Offer,
    pub amount: i64,
}

#[derive(Clone, Copy)]
pub struct ClaimCall {
    pub pool: u64,
    pub offer: Offer,
    pub lender: Account,
    pub amount: i64,
}

#[derive(Clone, Copy)]
pub struct RateCall {
    pub pool: u64,
    pub rate: i64,
}

// Unknown: a record of no such operation, or one with an unused field that is not 0. The definitions speak of it, so that it is a case.
#[derive(Clone, Copy)]
pub enum Operation {
    Stake(StakeCall),
    Withdraw(StakeCall),
    Pay(PayCall),
    Reserve(ReserveCall),
    Claim(ClaimCall),
    Rate(RateCall),
    Pause,
    Unpause,
    PayoutCaller(Account),
    Unknown,
}

// An operation as a record of the log holds it: its number, and its fields, 0 where it has none.
#[derive(Clone, Copy)]
pub struct Entry {
    pub number: u64,
    pub pool: u64,
    pub subject: u64,
    pub other: u64,
    pub reply: u64,
    pub amount: i64,
}

#[derive(Clone, Copy)]
pub struct Call {
    pub now: u64,
    pub signer: Account,
    pub operation: Operation,
}
