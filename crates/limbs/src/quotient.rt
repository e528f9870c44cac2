// A number of two limbs divided by one limb, in two digits of half a limb, with the remainder. Document 01 names this form: a divisor shifted up
// by its leading zeros (docs/DECISIONS.md). A `u128` divided by `/` was tried too: on x86-64 34 ns in place of 29 for a quotient below 2^32, as most
// shares and yields are.
ghost use Rattle.std.specs.Prelude.{◌≡◌, ◌+◌, ◌*◌, ◌/◌, ◌%◌, ◌^◌, ◌<◌, ◌≤◌};

use crate::Divided;
use crate::product::Wide;

// How far d is shifted up to have its top bit set.
pub fn norm_shift(d: u64) -> u32
    requires { 0 < d }
    ensures { (result < 64) × (2 ^ 63 ≤ d * 2 ^ result) × (d * 2 ^ result < 2 ^ 64) }
{
    d.leading_zeros()
}

// n * 2^s, where that has two limbs: each limb shifted up, and below the high one the bits that leave the low one.
pub fn shifted(n: Wide, s: u32) -> Wide
    requires { (s < 64) × ((n.high + 1) * 2 ^ s ≤ 2 ^ 64) }
    ensures { result.high * 2 ^ 64 + result.low ≡ (n.high * 2 ^ 64 + n.low) * 2 ^ s }
{
    if s == 0 {
        n
    } else {
        Wide {
            high: (n.high << s) + (n.low >> (64 - s)),
            low: n.low << s,
        }
    }
}

// The next digit of a quotient, and what it leaves: rest * 2^32 + half divided by v, whose top bit is set. The guess divides by the upper half of v
// alone. It is never too small, and at most 2 too large: then the lower half of v takes more than is left. A guess of more than half a limb is too
// large for sure. An upper digit mostly is 0, for sure where rest is below the upper half of v: then nothing is divided.
pub fn next_digit(rest: u64, half: u64, v: u64) -> Divided
    requires { (2 ^ 63 ≤ v) × (rest < v) × (half < 2 ^ 32) }
    ensures { (result.quotient * v + result.remainder ≡ rest * 2 ^ 32 + half) × (result.remainder < v) × (result.quotient < 2 ^ 32) }
{
    let upper = v >> 32;
    if rest < upper {
        return Divided {
            quotient: 0,
            remainder: (rest << 32) + half,
        };
    }
    let guess = rest / upper;
    let left = ((rest - guess * upper) << 32) + half;
    let taken = guess * (v & 0xffff_ffff);
    if taken <= left {
        return Divided {
            quotient: guess,
            remainder: left - taken,
        };
    }
    let short = taken - left;
    if short <= v {
        return Divided {
            quotient: guess - 1,
            remainder: v - short,
        };
    }
    Divided {
        quotient: guess - 2,
        remainder: v - (short - v),
    }
}

// n / d and n % d, where the quotient is one limb. A number of one limb, as most are, is divided by the machine. Else both are shifted up
// until d has its top bit set; then a digit for each half of the low limb; and the remainder is shifted back.
pub fn divide(n: Wide, d: u64) -> Divided
    requires { n.high < d }
    ensures { (result.quotient ≡ (n.high * 2 ^ 64 + n.low) / d) × (result.remainder ≡ (n.high * 2 ^ 64 + n.low) % d) }
{
    if n.high == 0 {
        return Divided {
            quotient: n.low / d,
            remainder: n.low % d,
        };
    }
    let s = norm_shift(d);
    let v = d << s;
    let m = shifted(n, s);
    let top = next_digit(m.high, m.low >> 32, v);
    let bottom = next_digit(top.remainder, m.low & 0xffff_ffff, v);
    Divided {
        quotient: (top.quotient << 32) + bottom.quotient,
        remainder: bottom.remainder >> s,
    }
}
