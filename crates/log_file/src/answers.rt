// The lines that a replay prints.
ghost use Rattle.std.specs.Prelude.{◌+◌, ◌≤◌, length};
ghost use Rattle.rules.specs.Answers.{due, answer_of};
ghost use Rattle.log_file.specs.Written.{Wrote};
ghost use Rattle.log_file.specs.Lines.{opening_text, bad_head_text, figures_text, transfer_text, told_text, answer_text, ending_text, longest};

use crate::texts::Text;
use rules::{Answer, Direction, Transfer};

// The room that a caller leaves in the buffer: no text here is longer.
pub const LONGEST: usize = 178;

impl Text<'_> {
    pub fn write_opening(&mut self)
        requires { self.old.at + longest ≤ length self.old.bytes.now }
        ensures wrote { Wrote self.old opening_text self.new }
        ensures upper_bound { self.new.at ≤ self.old.at + longest }
    {
        self.put_bytes(b"POL 1\n");
    }

    pub fn write_bad_head(&mut self)
        requires { self.old.at + longest ≤ length self.old.bytes.now }
        ensures wrote { Wrote self.old bad_head_text self.new }
        ensures upper_bound { self.new.at ≤ self.old.at + longest }
    {
        self.put_bytes(b"bad header\n");
    }

    // A record's number, the code of its answer, and two numbers.
    pub fn write_line(&mut self, number: u64, code: u64, first: i64, second: i64)
        requires { self.old.at + 86 ≤ length self.old.bytes.now }
        ensures wrote { Wrote self.old (figures_text number code first second) self.new }
        ensures upper_bound { self.new.at ≤ self.old.at + 86 }
    {
        self.put_number(number, b' ');
        self.put_number(code, b' ');
        self.put_signed(first, b' ');
        self.put_signed(second, b'\n');
    }

    pub fn write_transfer(&mut self, transfer: Option<Transfer>)
        requires { self.old.at + 46 ≤ length self.old.bytes.now }
        ensures wrote { Wrote self.old (transfer_text (due transfer)) self.new }
        ensures upper_bound { self.new.at ≤ self.old.at + 46 }
    {
        let Some(transfer) = transfer else {
            return;
        };
        match transfer.direction {
            Direction::In => self.put_bytes(b"in "),
            Direction::Out => self.put_bytes(b"out "),
        }
        self.put_pair(transfer.account.0, transfer.amount);
    }

    // A record's number, any code and two numbers, then the transfers that are due.
    pub fn write_told(
        &mut self,
        number: u64,
        code: u64,
        first: i64,
        second: i64,
        one: Option<Transfer>,
        two: Option<Transfer>,
    )
        requires { self.old.at + longest ≤ length self.old.bytes.now }
        ensures wrote { Wrote self.old (told_text number code first second (due one) (due two)) self.new }
        ensures upper_bound { self.new.at ≤ self.old.at + longest }
    {
        self.write_line(number, code, first, second);
        self.write_transfer(one);
        self.write_transfer(two);
    }

    // A record's number and answer, then its transfers.
    pub fn write_answer(&mut self, number: u64, answer: Answer)
        requires { self.old.at + longest ≤ length self.old.bytes.now }
        ensures wrote { Wrote self.old (answer_text number (answer_of answer)) self.new }
        ensures upper_bound { self.new.at ≤ self.old.at + longest }
    {
        match answer {
            Ok(done) => self.write_told(number, 0, done.first, done.second, done.one, done.two),
            Err(refusal) => self.write_told(number, refusal.code(), 0, 0, None, None),
        }
    }

    pub fn write_ending(&mut self, records: u64, left: u64)
        requires { self.old.at + longest ≤ length self.old.bytes.now }
        ensures wrote { Wrote self.old (ending_text records left) self.new }
        ensures upper_bound { self.new.at ≤ self.old.at + longest }
    {
        self.put_bytes(b"end ");
        self.put_pair(records, left);
    }
}
