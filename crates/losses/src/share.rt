// What one stake loses.
ghost use Rattle.std.specs.Prelude.{◌≡◌, eqb};
ghost use Rattle.std.specs.Int.{w64};
ghost use Rattle.std.proofs.Common.{to_z};
ghost use Rattle.whole.specs.Shares.{share};
ghost use Rattle.losses.specs.inner.Settling.{Divisible, lowered_by};

use crate::Loss;

// The share of a stake in a loss of a balance, rounded toward zero. It is at most the stake in size, so it has a word.
pub fn share_of(stake: u64, loss: u64, balance: u64) -> u64
    requires { Divisible (to_z w64 stake) loss balance }
    ensures { to_z w64 result ≡ share (to_z w64 stake) loss balance }
{
    limbs::signed_mul_div(stake, loss, balance).map_or(0, |share| share.quotient)
}

impl Loss {
    // What row i, of that stake, loses of the rest: a row that is kept only for its accrual is no sharer, and the last sharer bears the rest.
    pub fn cut_of(self, i: usize, stake: u64, rest: u64) -> u64
        requires { Divisible (to_z w64 stake) self.amount self.balance }
        ensures { to_z w64 result ≡ lowered_by self.amount self.balance (eqb i self.last) (to_z w64 rest) (to_z w64 stake) }
    {
        if stake == 0 {
            return 0;
        }
        if i == self.last {
            return rest;
        }
        whole::lesser(share_of(stake, self.amount, self.balance), rest)
    }
}
