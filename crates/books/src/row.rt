// A row of a table of any kind: how it is read from words and written as words, and what is done with every kind alike.
ghost use Rattle.std.specs.Prelude.{◌≡◌, ◌+◌, ◌*◌, ◌≤◌, ◌+ℤ◌, true, length};
ghost use Rattle.whole.specs.Whole.{Within};
ghost use Rattle.rows.specs.Rows.{key_of};
ghost use Rattle.rows.specs.inner.Moves.{row_written};
ghost use Rattle.rules.specs.Limits.{limit, most_stakes};
ghost use Rattle.books.specs.Tables.{used_of, tidy};
ghost use Rattle.books.specs.inner.Kinds.{Kind};
ghost use Rattle.books.specs.inner.KindLaws.{KindLaws};
ghost use Rattle.books.specs.inner.Held.{Held, CanPut, PutDone, row_for};

use crate::put::put_row;
use rows::Key;

pub trait Row<const WIDTH: usize>: Copy {
    ghost kind: { Kind };

    // The row of the rules that a value is.
    ghost row: { Self → kind.Row };

    // Row i.
    fn at(table: &[u64], i: usize) -> Self
        requires { i * WIDTH + WIDTH ≤ length table.now }
        ensures { row result ≡ kind.row_at table.now i };

    // The row of a number in a pool, with nothing in it.
    fn empty(pool: u64, number: u64) -> Self
        ensures { row result ≡ kind.none pool number };

    fn words(self) -> [u64; WIDTH]
        ensures { result ≡ kind.words (row self) };

    // A row's pool, and the number of its account or offer, which is 0 where the row is not used.
    fn key(self) -> Key
        ensures pool { result.pool ≡ kind.pool (row self) }
        ensures number { result.number ≡ kind.number (row self) };

    // Whether a row goes from its table.
    fn is_gone(self) -> bool
        ensures { result ≡ kind.gone (row self) };

    // Whether a row is in order.
    fn is_in_order(self) -> bool
        ensures { result ≡ kind.test (row self) };

    // The sum of a pool's rows, with that of one more row of the pool.
    fn added_to(self, sum: u64) -> u64
        requires in_order { kind.test (row self) ≡ true }
        requires within { Within (most_stakes * limit) (kind.value sum) }
        ensures { kind.value result ≡ kind.value sum +ℤ kind.part (kind.pool (row self)) (row self) };

    ghost laws: { KindLaws kind WIDTH };

    // The number of used rows.
    final fn used_in(table: &[u64]) -> usize
        requires { tidy WIDTH table.now ≡ true }
        ensures { result ≡ used_of WIDTH table.now }
    {
        rows::used_rows(table, WIDTH)
    }

    // Writes a row as row i.
    final fn write(self, table: &mut [u64], i: usize)
        requires { i * WIDTH + WIDTH ≤ length table.old }
        ensures { table.new ≡ row_written table.old WIDTH i (kind.words (row self)) }
    {
        let words = self.words();
        rows::write_row(table, WIDTH, i, &words);
    }

    // Puts a row in its place, or takes the row with its key out where it is gone. Answers the number of used rows.
    final fn put(self, table: &mut [u64], used: usize) -> usize
        requires { CanPut kind WIDTH (row self) table.old used }
        ensures { PutDone kind WIDTH (row self) table.old table.new result }
    {
        let words = self.words();
        put_row(table, WIDTH, used, &words, self.is_gone())
    }
}

// The row of a number in a pool, empty where it has none. `Stake::of` and `OfferLine::of` ask for it by a number of their own kind, so that no row is
// looked up by the other's.
pub fn find<const WIDTH: usize, R: Row<WIDTH>>(
    table: &[u64],
    used: usize,
    pool: u64,
    number: u64,
) -> R
    requires { Held R.kind WIDTH table.now used }
    ensures { R.Row.row result ≡ row_for R.kind WIDTH (R.kind.none pool number) (key_of pool number) table.now }
{
    match rows::place_of(table, WIDTH, used, Key { pool, number }) {
        Ok(i) => R::at(table, i),
        Err(_) => R::empty(pool, number),
    }
}
