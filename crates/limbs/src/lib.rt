// a * b / d through a product of two limbs, with the remainder, and the same of a signed number: the one multiply-and-divide
// that shares of a loss, yields and caps rest on.
#![tactic(auto)]

mod product;
mod quotient;

ghost use Rattle.std.specs.Prelude.{◌≡◌};
ghost use Rattle.std.specs.Int.{w64};
ghost use Rattle.std.proofs.Common.{to_z};
ghost use Rattle.limbs.specs.MulDiv.{mul_div, signed_mul_div};

// The most that a signed word holds.
const MOST: u64 = i64::MAX as u64;

// A quotient and its remainder.
#[derive(Clone, Copy)]
pub struct Divided {
    pub quotient: u64,
    pub remainder: u64,
}

// a * b / d and a * b % d, for every a, b and d. None where the quotient has no word, as for a divisor of 0.
pub fn mul_div(a: u64, b: u64, d: u64) -> Option<Divided>
    ensures { result ≡ mul_div a b d }
{
    let p = product::product(a, b);
    if p.high < d {
        Some(quotient::divide(p, d))
    } else {
        None
    }
}

// x * m / d rounded toward zero, and what that drops, of a signed word x: the sign is set apart from the two-limb magnitude, so
// that a negative share is not rounded down. Both answers are signed words.
pub fn signed_mul_div(x: u64, m: u64, d: u64) -> Option<Divided>
    ensures { result ≡ signed_mul_div (to_z w64 x) m d }
{
    let size = mul_div(whole::magnitude(x), m, d)?;
    if MOST < size.quotient || MOST < size.remainder {
        return None;
    }
    let negative = whole::is_negative(x);
    Some(Divided {
        quotient: whole::signed(negative, size.quotient),
        remainder: whole::signed(negative, size.remainder),
    })
}
