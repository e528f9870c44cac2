// A loss that was settled, written: one pass over the pool's rows, which packs those that are kept.
ghost use Rattle.std.specs.Prelude.{◌≡◌, cond, ◌+◌, ◌*◌, ◌≤◌, ◌-ℤ◌, length};
ghost use Rattle.std.specs.Int.{w64};
ghost use Rattle.std.proofs.Common.{to_z, SFits};
ghost use Rattle.rows.specs.inner.Moves.{row_written};
ghost use Rattle.rules.specs.Books.{stake_gone};
ghost use Rattle.rules.specs.Sharing.{cut_row};
ghost use Rattle.books.specs.Layout.{stake_width};
ghost use Rattle.books.specs.Tables.{room_of, table_words};
ghost use Rattle.books.specs.Words.{stake_words};
ghost use Rattle.books.specs.inner.Held.{stake_of};
ghost use Rattle.losses.specs.Loss.{after};
ghost use Rattle.losses.specs.inner.Settling.{Ready};

use crate::Loss;
use books::layout::STAKE_WIDTH;
use books::{Row, Stake};

// A row less what it loses. Where nothing is left of its stake, `since` is 0 and the accrual stays.
fn cut_row(row: Stake, cut: u64) -> Stake
    requires { SFits w64 (to_z w64 row.stake -ℤ to_z w64 cut) }
    ensures { stake_of result ≡ cut_row (stake_of row) (to_z w64 cut) }
{
    let stake = whole::sub(row.stake, cut);
    Stake {
        stake,
        since: if stake == 0 { 0 } else { row.since },
        ..row
    }
}

// Writes a row as row `at`, unless it has nothing left: an accrual keeps it. Returns the row after those kept.
fn keep_row(stakes: &mut [u64], at: usize, row: Stake) -> usize
    requires { at * stake_width + stake_width ≤ length stakes.old }
    ensures value { result ≡ cond (stake_gone (stake_of row)) at (at + 1) }
    ensures stakes_after { stakes.new ≡ cond (stake_gone (stake_of row)) stakes.old (row_written stakes.old stake_width at (stake_words (stake_of row))) }
{
    if row.is_gone() {
        return at;
    }
    row.write(stakes, at);
    at + 1
}

impl Loss {
    // Lowers the stakes of the pool's rows, in row order, and takes out those that are left with nothing. Returns the number of used rows.
    pub fn lower(self, stakes: &mut [u64], used: usize) -> usize
        requires { Ready stakes.old used self }
        ensures value { result ≡ length (after stakes.old self.pool self.amount self.balance) }
        ensures stakes_after { stakes.new ≡ table_words stake_words stake_width (room_of stake_width stakes.old) (after stakes.old self.pool self.amount self.balance) }
    {
        let mut rest = self.amount;
        let mut at = self.from;
        for i in self.from..self.to {
            let row = Stake::at(stakes, i);
            let cut = self.cut_of(i, row.stake, rest);
            rest = whole::sub(rest, cut);
            at = keep_row(stakes, at, cut_row(row, cut));
        }
        rows::close(
            stakes,
            at * STAKE_WIDTH,
            self.to * STAKE_WIDTH,
            used * STAKE_WIDTH,
        );
        at + (used - self.to)
    }
}
