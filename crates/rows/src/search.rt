// Search by halving. Each turn of a loop reads one row and leaves at most half of the rows in question, so that a search among `n` rows reads at
// most as many rows as `n` has binary digits. A turn selects between values that are at hand: it has no branch for the machine to guess.
ghost use Rattle.std.specs.Prelude.{◌≡◌, ◌+◌, ◌*◌, ◌^◌, ◌≤◌, ◌<◌, length};
ghost use Rattle.rows.specs.Rows.{key_of, Sorted};
ghost use Rattle.rows.specs.inner.Order.{Packed, Used};
ghost use Rattle.rows.specs.Lookup.{place_of, lookup};

use crate::row::{Key, get, key_at};
use crate::{Lookup, NUMBER};

// The place of a key among the first `used` rows, and the number of rows read. The loop reads one row a turn and counts it; whether row `high` has the
// key is seen when it is read, so that none is looked at again at the end. That is a bool, and no Option of the row: with one the loop has a branch to
// guess, and a random key among 1,024 rows takes 1.4 times as long.
pub fn find(s: &[u64], width: usize, used: usize, key: Key) -> Lookup
    requires lt_width { 1 < width }
    requires width_in_bounds { used * width ≤ length s.now }
    requires sorted { Sorted s.now width used }
    ensures { result ≡ lookup s.now width used (key_of key.pool key.number) }
{
    let mut reads = 0;
    let mut low = 0;
    let mut high = used;
    let mut found = false;
    let place = loop {
        if low == high {
            break if found { Ok(low) } else { Err(low) };
        }
        let mid = low + (high - low) / 2;
        let here = key_at(s, width, mid);
        reads += 1;
        if here < key {
            low = mid + 1;
        } else {
            high = mid;
            found = here == key;
        }
    };
    Lookup { place, reads }
}

// The place alone.
pub fn place_of(s: &[u64], width: usize, used: usize, key: Key) -> Result<usize, usize>
    requires lt_width { 1 < width }
    requires width_in_bounds { used * width ≤ length s.now }
    requires sorted { Sorted s.now width used }
    ensures { result ≡ place_of s.now width used (key_of key.pool key.number) }
{
    find(s, width, used, key).place
}

// The number of used rows, where the used rows come first. It halves by itself: `find` counts its reads and sees equal keys, and asking for neither takes
// no key.
pub fn used_rows(s: &[u64], width: usize) -> usize
    requires lt_width { 1 < width }
    requires packed { Packed s.now width }
    ensures { Used s.now width result }
{
    let mut used = 0;
    let mut unused = s.len() / width;
    while used < unused {
        let mid = used + (unused - used) / 2;
        if get(s, width, mid, NUMBER) != 0 {
            used = mid + 1;
        } else {
            unused = mid;
        }
    }
    used
}
