// Whether words are all zero.
ghost use Rattle.std.specs.Prelude.{◌≡◌, drop};
ghost use Rattle.rows.specs.Rows.{all_zero};

// So many words are read with no branch between them, so that the machine takes several at once.
const PART: usize = 32;

// Whether each of a part's words is zero: all are read.
fn is_zero(part: &[u64]) -> bool
    ensures { result ≡ all_zero part.now }
{
    part.iter().fold(0, |bits, &word| bits | word) == 0
}

// Whether every word from index `from` on is zero. A part that is not ends it: a table that is no good is told as early as that.
pub fn blank(s: &[u64], from: usize) -> bool
    ensures { result ≡ all_zero (drop from s.now) }
{
    if s.len() < from {
        return true;
    }
    let mut rest = &s[from..];
    while let Some((part, behind)) = rest.split_first_chunk::<PART>() {
        if !is_zero(part) {
            return false;
        }
        rest = behind;
    }
    is_zero(rest)
}
