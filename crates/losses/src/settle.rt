// Who bears the rest of a loss, and whether it can be borne, found before anything is written.
ghost use Rattle.std.specs.Prelude.{◌≡◌, false, ◌-◌, ◌*◌, ◌≤◌, pos, length};
ghost use Rattle.std.specs.Int.Signed.{lt_z};
ghost use Rattle.std.specs.Int.{w64};
ghost use Rattle.std.proofs.Common.{to_z};
ghost use Rattle.books.specs.Layout.{stake_width};
ghost use Rattle.losses.specs.inner.Settling.{LastSharer, NoneBelow, Sharers, SomeSharer, least, left_last, rest_after};

use crate::Loss;
use books::layout::{STAKE, STAKE_WIDTH};

// -10^15, as a word: the least stake.
const LEAST: u64 = 0xfffc_7281_5b39_8000;

// The last of the rows from .. to - 1 that has a stake. A row that is kept only for its accrual is passed by.
pub fn last_sharer(stakes: &[u64], from: usize, to: usize) -> usize
    requires stake_width_in_bounds { to * stake_width ≤ length stakes.now }
    requires some_sharer { SomeSharer stakes.now from to }
    ensures { LastSharer stakes.now from to result }
{
    (from..to)
        .rev()
        .find(|i| rows::get(stakes, STAKE_WIDTH, *i, STAKE) != 0)
        .unwrap()
}

// Whether one of the rows from .. to - 1 has a stake below 0.
fn any_negative(stakes: &[u64], from: usize, to: usize) -> bool
    requires { to * stake_width ≤ length stakes.now }
    ensures { (result ≡ false → NoneBelow stakes.now from to) × (NoneBelow stakes.now from to → result ≡ false) }
{
    (from..to).any(|i| whole::is_negative(rows::get(stakes, STAKE_WIDTH, i, STAKE)))
}

impl Loss {
    // What is left of the loss for the last sharer.
    fn rest_for(self, stakes: &[u64]) -> u64
        requires { Sharers stakes.now self }
        ensures { to_z w64 result ≡ rest_after stakes.now self.amount self.balance (pos self.amount) self.from (self.last - self.from) }
    {
        let mut rest = self.amount;
        for i in self.from..self.last {
            let stake = rows::get(stakes, STAKE_WIDTH, i, STAKE);
            rest = whole::sub(rest, self.cut_of(i, stake, rest));
        }
        rest
    }

    // Whether the last sharer would be left with less than the least stake. Where no stake is below 0 the rest never grows, so that it is
    // no more than the loss, and the shares need not be computed.
    pub fn over_limit(self, stakes: &[u64]) -> bool
        requires { Sharers stakes.now self }
        ensures { result ≡ lt_z (left_last stakes.now self) least }
    {
        if !any_negative(stakes, self.from, self.last + 1) {
            return false;
        }
        let rest = self.rest_for(stakes);
        let left = whole::sub(rows::get(stakes, STAKE_WIDTH, self.last, STAKE), rest);
        whole::less(left, LEAST)
    }
}
