// One pass over a table of any words: whether its used rows are each in order and ascend, how many they are, and what each pool's rows come to.
ghost use Rattle.std.specs.Prelude.{◌≤◌};
ghost use Rattle.rules.specs.Limits.{most_stakes};
ghost use Rattle.books.specs.Tables.{room_of};
ghost use Rattle.books.specs.inner.Passes.{PassedOr};

use crate::layout::POOLS;
use crate::row::Row;
use rows::Key;

// The number of used rows and the sum of each pool.
#[derive(Clone, Copy)]
pub struct Passed {
    pub used: usize,
    pub sums: [u64; POOLS],
}

// What the rows come to, or none where they are not in order.
pub fn pass<const WIDTH: usize, R: Row<WIDTH>>(table: &[u64]) -> Option<Passed>
    requires { room_of WIDTH table.now ≤ most_stakes }
    ensures { PassedOr R.kind WIDTH table.now result }
{
    let room = table.len() / WIDTH;
    let mut sums = [0; POOLS];
    let mut last = Key { pool: 0, number: 0 };
    for i in 0..room {
        let row = R::at(table, i);
        let key = row.key();
        if key.number == 0 {
            return Some(Passed { used: i, sums });
        }
        if key <= last || !row.is_in_order() {
            return None;
        }
        let pool = key.pool as usize;
        sums[pool] = row.added_to(sums[pool]);
        last = key;
    }
    Some(Passed { used: room, sums })
}
