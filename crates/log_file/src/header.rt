// The log's head.
ghost use Rattle.std.specs.Prelude.{◌≡◌, Some};
ghost use Rattle.rules.specs.declared.Account.{Account};
ghost use Rattle.log_file.specs.Opening.{head_of};
ghost use Rattle.log_file.specs.Writer.{head_text};

use rules::Account;

// The bytes of a head.
pub const HEAD: usize = 16;

// The format's name and its version, and three zero bytes; the admin's eight bytes are behind them.
pub const MARK: [u8; 8] = *b"POL\x01\0\0\0\0";

// The admin of a log, or none. A head that is an admin's is written as the bytes that it was read from.
pub fn read_head(bytes: &[u8]) -> Option<Account>
    ensures value { result ≡ head_of bytes.now }
    ensures written_back { (admin : Account) → result ≡ Some admin → head_text admin ≡ bytes.now }
{
    let admin = bytes.strip_prefix(&MARK)?.as_array()?;
    match u64::from_le_bytes(*admin) {
        0 => None,
        admin => Some(Account(admin)),
    }
}
