// One row: its words and its key.
ghost use Rattle.std.specs.Prelude.{◌≡◌, ◌+◌, ◌*◌, ◌≤◌, ◌<◌, ltb, length};
ghost use Rattle.rows.specs.Rows.{word, key_of, key_at};

use crate::{NUMBER, POOL};

// Word k of row i.
pub fn get(s: &[u64], width: usize, i: usize, k: usize) -> u64
    requires { i * width + k < length s.now }
    ensures { result ≡ word s.now width i k }
{
    s[i * width + k]
}

// A row's key: the order is that of the pools, and within a pool that of the numbers.
#[derive(Clone, Copy, PartialEq, Eq, PartialOrd, Ord)]
pub struct Key {
    pub pool: u64,
    pub number: u64,
}

// The key of row i.
pub fn key_at(s: &[u64], width: usize, i: usize) -> Key
    requires lt_width { 1 < width }
    requires width_in_bounds { i * width + width ≤ length s.now }
    ensures { key_of result.pool result.number ≡ key_at s.now width i }
{
    Key {
        pool: get(s, width, i, POOL),
        number: get(s, width, i, NUMBER),
    }
}

// Whether key (p, n) is below key (pool, number).
pub fn below(p: u64, n: u64, pool: u64, number: u64) -> bool
    ensures { result ≡ ltb (key_of p n) (key_of pool number) }
{
    Key { pool: p, number: n } < Key { pool, number }
}
