// The whole product of two words, as two limbs. A `u128` would do it by one `*`. Document 01 names this form: the low half carries by wrapping
// addition (docs/DECISIONS.md).
ghost use Rattle.std.specs.Prelude.{◌≡◌, ◌+◌, ◌*◌, ◌^◌, ◌<◌, ◌≤◌};

// A number of 128 bits: high * 2^64 + low.
#[derive(Clone, Copy)]
pub struct Wide {
    pub high: u64,
    pub low: u64,
}

// a + b, whose high limb is the carry. The low limb is the wrapped sum; it wrapped exactly where it is smaller than an addend.
pub fn add_carry(a: u64, b: u64) -> Wide
    ensures { (result.high * 2 ^ 64 + result.low ≡ a + b) × (result.high ≤ 1) }
{
    let low = a.wrapping_add(b);
    Wide {
        high: u64::from(low < a),
        low,
    }
}

// a * b. Each number is cut into halves of 32 bits, so that a product of two halves fits a limb; the low halves of the partial
// products are added by wrapping addition, with their carries.
pub fn product(a: u64, b: u64) -> Wide
    ensures { result.high * 2 ^ 64 + result.low ≡ a * b }
{
    let a0 = a & 0xffff_ffff;
    let a1 = a >> 32;
    let b0 = b & 0xffff_ffff;
    let b1 = b >> 32;
    let middle = add_carry(a0 * b1, a1 * b0);
    let bottom = add_carry(a0 * b0, middle.low << 32);
    Wide {
        high: a1 * b1 + (middle.low >> 32) + (middle.high << 32) + bottom.high,
        low: bottom.low,
    }
}
