// Signed 64-bit numbers kept as words in two's complement, each operation with its contract in ℤ:
// `to_z w64 w` is the number that the word w holds. Tables are words, so an i64 stands only where a number comes in or goes out, and inside these bodies.
#![tactic(auto)]

ghost use Rattle.std.specs.Prelude.{◌≡◌, ◌^◌, ◌<◌, pos, ◌+ℤ◌, ◌-ℤ◌, FitsSigned, int_lt, unsigned_abs};
ghost use Rattle.std.specs.Int.{w64};
ghost use Rattle.std.proofs.Common.{to_z, of_z};
ghost use Rattle.whole.specs.Whole.{min_z, signed_z};

// The number that a word holds.
pub fn of_word(w: u64) -> i64
    ensures { result ≡ to_z w64 w }
{
    w.cast_signed()
}

// The word of a number.
pub fn to_word(x: i64) -> u64
    ensures { result ≡ of_z w64 x }
{
    x.cast_unsigned()
}

// The sum, which the caller shows to fit. In two's complement the sum that wraps is the one wanted.
pub fn add(a: u64, b: u64) -> u64
    requires { FitsSigned w64 (to_z w64 a +ℤ to_z w64 b) }
    ensures { to_z w64 result ≡ to_z w64 a +ℤ to_z w64 b }
{
    a.wrapping_add(b)
}

// The difference, which the caller shows to fit.
pub fn sub(a: u64, b: u64) -> u64
    requires { FitsSigned w64 (to_z w64 a -ℤ to_z w64 b) }
    ensures { to_z w64 result ≡ to_z w64 a -ℤ to_z w64 b }
{
    a.wrapping_sub(b)
}

// Whether a is less than b.
pub fn less(a: u64, b: u64) -> bool
    ensures { result ≡ int_lt (to_z w64 a) (to_z w64 b) }
{
    of_word(a) < of_word(b)
}

// The lesser of two.
pub fn lesser(a: u64, b: u64) -> u64
    ensures { to_z w64 result ≡ min_z (to_z w64 a) (to_z w64 b) }
{
    to_word(of_word(a).min(of_word(b)))
}

// Whether the number is below 0: its sign, set apart.
pub fn is_negative(w: u64) -> bool
    ensures { result ≡ int_lt (to_z w64 w) (pos 0) }
{
    of_word(w).is_negative()
}

// The magnitude, of the least number too.
pub fn magnitude(w: u64) -> u64
    ensures { result ≡ unsigned_abs (to_z w64 w) }
{
    of_word(w).unsigned_abs()
}

// The number of a sign and a magnitude.
pub fn signed(negative: bool, magnitude: u64) -> u64
    requires { magnitude < 2 ^ 63 }
    ensures { to_z w64 result ≡ signed_z negative magnitude }
{
    let number = of_word(magnitude);
    to_word(if negative { -number } else { number })
}
