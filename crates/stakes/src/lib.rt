// Stake and withdraw on lent words: settled on the staker's row, then written. Each is settled by a function of its own, since their rungs
// differ one by one.
#![tactic(auto)]

mod staker;
mod staking;
mod unstaking;

pub use staking::stake;
pub use unstaking::unstake;
