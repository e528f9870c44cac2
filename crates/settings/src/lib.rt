// The admin's operations on lent words: yield rate, pause, unpause, payout caller.
#![tactic(auto)]

mod admin;
mod rate;
mod switches;

pub use rate::set_yield_rate;
pub use switches::{set_paused, set_payout_caller};
