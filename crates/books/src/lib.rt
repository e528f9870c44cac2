// Three lent slices of words, and the books of the rules that they hold: rows and figures read by name, rows put, and a test of any words.
// Each contract is over the rows and figures of the rules, so that a caller reasons on these alone and never sees an offset.
// The three slices go side by side, as they are lent: in a struct of three `&mut` the check keeps what a call left in them only where the struct is taken
// apart before the call and made again for it, which is no plainer. A query only reads, and has them in one (`queries::View`).
#![tactic(auto)]

mod banking;
mod figures;
pub mod layout;
mod lengths;
mod offers;
mod opening;
mod pass;
mod pool;
mod put;
mod row;
mod stakes;
mod test;

pub use banking::banked_of;
pub use figures::{
    admin, balance, is_paused, payout_caller, rate, set_balance, set_paused, set_payout_caller,
    set_rate, set_unpaid, unpaid,
};
pub use layout::Books;
pub use offers::OfferLine;
pub use opening::fresh;
pub use pool::{pool_rows, pool_start};
pub use row::Row;
pub use stakes::Stake;
pub use test::tables_well_formed;
