// A row of any width put in its place: one way for both tables.
ghost use Rattle.std.specs.Prelude.{◌≡◌, ◌*◌, ◌≤◌, ◌<◌, length};
ghost use Rattle.rows.specs.Rows.{Sorted};
ghost use Rattle.books.specs.inner.Put.{put_words, put_count, place_for};

use crate::layout::{NUMBER, POOL};
use rows::Key;

// Puts a row in its place among the first `used` rows, or takes the row with its key out where it is gone. Answers the number of used rows.
pub fn put_row(s: &mut [u64], width: usize, used: usize, row: &[u64], gone: bool) -> usize
    requires lt_width { (1 < width) × (length row.now ≡ width) }
    requires width_in_bounds { (used * width ≤ length s.old) × Sorted s.old width used }
    requires width_in_bounds_2 { put_count used gone (place_for s.old width used row.now) * width ≤ length s.old }
    ensures s_after { s.new ≡ put_words width s.old used row.now gone (place_for s.old width used row.now) }
    ensures value { result ≡ put_count used gone (place_for s.old width used row.now) }
{
    let key = Key {
        pool: row[POOL],
        number: row[NUMBER],
    };
    match (rows::place_of(s, width, used, key), gone) {
        (Ok(i), true) => {
            rows::remove(s, width, used, i);
            used - 1
        }
        (Ok(i), false) => {
            rows::write_row(s, width, i, row);
            used
        }
        (Err(_), true) => used,
        (Err(i), false) => {
            rows::insert(s, width, used, i, row);
            used + 1
        }
    }
}
