// A log that comes in parts: the bytes that are there and not yet run stand at the front of a lent buffer.
ghost use Rattle.std.specs.Prelude.{◌≡◌, true, ◌-◌, ◌≤◌, ◌^◌, length, take};
ghost use Rattle.books.specs.Words.{tables, good_tables};
ghost use Rattle.history.specs.Replays.{part_run, replayed};
ghost use Rattle.history.specs.Bounds.{Bounded};
ghost use Rattle.history.specs.Buffers.{at_front};

use crate::{Progress, replay};
use books::Books;

// Runs the records among the first `there` bytes, and moves the bytes behind those that ran to the front.
pub fn advance(
    stakes: &mut [u64],
    offers: &mut [u64],
    books: &mut Books,
    bytes: &mut [u8],
    there: usize,
    text: &mut [u8],
    number: u64,
) -> Progress
    requires tables_good { good_tables (tables stakes.old offers.old books.old) ≡ true }
    requires number_bound { number ≤ 2 ^ 63 }
    requires there_in_bounds { there ≤ length bytes.old }
    ensures text_after { part_run result (tables stakes.new offers.new books.new) text.new ≡ replayed (tables stakes.old offers.old books.old) (take there bytes.old) text.old number }
    ensures bytes_after { bytes.new ≡ at_front bytes.old result.taken (there - result.taken) }
    ensures bounded { Bounded (tables stakes.new offers.new books.new) (take there bytes.old) text.old number result }
{
    let done = replay(stakes, offers, books, &bytes[..there], text, number);
    bytes.copy_within(done.taken..there, 0);
    done
}
