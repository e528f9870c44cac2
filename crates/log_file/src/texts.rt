// A text that is written into a lent buffer.
ghost use Rattle.std.specs.Prelude.{◌≡◌, ◌+◌, ◌≤◌, length};
ghost use Rattle.std.specs.Fmt.{decimal, signed_decimal};
ghost use Rattle.log_file.specs.Bytes.{bytes_of};
ghost use Rattle.log_file.specs.Written.{Wrote};
ghost use Rattle.log_file.specs.Lines.{followed, pair_text};

// A lent buffer, and the place behind what is written in it.
#[derive(Drop)]
pub struct Text<'a> {
    pub bytes: &'a mut [u8],
    pub at: usize,
}

// How many digits a number has.
fn digits(number: u64) -> usize
    ensures count { result ≡ length (decimal number) }
    ensures most { result ≤ 20 }
{
    if number == 0 {
        return 1;
    }
    number.ilog10() as usize + 1
}

impl Text<'_> {
    // Bytes as they are.
    pub(crate) fn put_bytes(&mut self, bytes: &[u8])
        requires { self.old.at + length bytes.now ≤ length self.old.bytes.now }
        ensures { Wrote self.old bytes.now self.new }
    {
        let end = self.at + bytes.len();
        self.bytes[self.at..end].copy_from_slice(bytes);
        self.at = end;
    }

    // The digits of a number, at their place: in a buffer of its own they would have to be copied from there, by C's `memcpy`, which a caller would have to
    // link.
    fn put_digits(&mut self, number: u64)
        requires { self.old.at + 20 ≤ length self.old.bytes.now }
        ensures wrote { Wrote self.old (decimal number) self.new }
        ensures upper_bound { self.new.at ≤ self.old.at + 20 }
    {
        let end = self.at + digits(number);
        itoa::write_digits(number, self.bytes, end);
        self.at = end;
    }

    // A number in decimal, and the byte behind it.
    pub(crate) fn put_number(&mut self, number: u64, end: u8)
        requires { self.old.at + 21 ≤ length self.old.bytes.now }
        ensures wrote { Wrote self.old (followed (decimal number) end) self.new }
        ensures upper_bound { self.new.at ≤ self.old.at + 21 }
    {
        self.put_digits(number);
        self.put_bytes(&[end]);
    }

    // The same of a signed number.
    pub(crate) fn put_signed(&mut self, number: i64, end: u8)
        requires { self.old.at + 22 ≤ length self.old.bytes.now }
        ensures wrote { Wrote self.old (followed (signed_decimal number) end) self.new }
        ensures upper_bound { self.new.at ≤ self.old.at + 22 }
    {
        if number < 0 {
            self.put_bytes(b"-");
            return self.put_number(number.unsigned_abs(), end);
        }
        self.put_number(number.unsigned_abs(), end);
    }

    // Two numbers, and the end of the line.
    pub(crate) fn put_pair(&mut self, a: u64, b: u64)
        requires { self.old.at + 42 ≤ length self.old.bytes.now }
        ensures wrote { Wrote self.old (pair_text a b) self.new }
        ensures upper_bound { self.new.at ≤ self.old.at + 42 }
    {
        self.put_number(a, b' ');
        self.put_number(b, b'\n');
    }

    // The eight bytes of a word, the least byte first.
    pub(crate) fn put_word(&mut self, word: u64)
        requires { self.old.at + 8 ≤ length self.old.bytes.now }
        ensures { Wrote self.old (bytes_of 8 word) self.new }
    {
        self.put_bytes(&word.to_le_bytes());
    }
}
