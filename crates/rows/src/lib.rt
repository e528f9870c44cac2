// A sorted table of fixed-width rows in a flat slice that the caller lends. A row begins with a pool and a number, which together are its
// key. Used rows come first, in strictly ascending order of their keys; unused rows are all zero. What else a row holds is the caller's. The width is a
// value here, so that one compiled copy serves both tables. How many rows are used is counted once for a call and handed on: a slice cut to them would
// lose the free rows behind, which a put needs.
#![tactic(auto)]

mod moves;
mod row;
mod scan;
mod search;

pub use moves::{close, insert, remove, write_row};
pub use row::{Key, below, get};
pub use scan::blank;
pub use search::{find, place_of, used_rows};

// Where the two words of a row's key stand.
pub const POOL: usize = 0;

pub const NUMBER: usize = 1;

// What a lookup answers: the row that has the key, or else the row at which it would be inserted, as `binary_search` does; and how many rows it read
// to tell it.
#[derive(Clone, Copy)]
pub struct Lookup {
    pub place: Result<usize, usize>,
    pub reads: usize,
}
