// Pay, reserve and claim on lent words: settled on what is lent, then written.
// Each proof may use what good tables give.
#![tactic(auto, using(crate::proofs::PoolFigures::tidy_stakes, crate::proofs::OfferWrites::searchable))]

mod claim;
mod loss;
mod offer;
mod pay;
mod payer;
mod reserve;

pub use claim::claim_payout;
pub use pay::pay_out;
pub use reserve::reserve_payout;
