// A history run from a log: the empty tables that its head begins, then its records, one call each, and the text that they print.
#![tactic(auto)]

mod buffer;
mod turns;

ghost use Rattle.std.specs.Prelude.{◌≡◌, true, ◌≤◌, ◌^◌};
ghost use Rattle.rules.specs.Answers.{told_code};
ghost use Rattle.books.specs.Words.{tables, good_tables};
ghost use Rattle.books.specs.Fresh.{renewed};
ghost use Rattle.history.specs.Beginning.{opened};
ghost use Rattle.history.specs.Replays.{part_run, replayed};
ghost use Rattle.history.specs.Bounds.{Bounded};

use books::Books;
use log_file::{LONGEST, RECORD, Text};
use rules::Refusal;
pub use turns::{Position, Turn, start, take_turn};

// A fresh set of a log's head: its admin's, or why there is none; Malformed for any other bytes.
pub fn begin(
    stakes: &mut [u64],
    offers: &mut [u64],
    books: &mut [u64],
    head: &[u8],
) -> Result<(), Refusal>
    ensures { renewed (told_code result) (tables stakes.new offers.new books.new) ≡ opened (tables stakes.old offers.old books.old) head.now }
{
    match log_file::read_head(head) {
        Some(admin) => books::fresh(stakes, offers, books, admin),
        None => Err(Refusal::Malformed),
    }
}

// Records in all so far, bytes of this part of the log taken, and bytes of text that they print.
#[derive(Clone, Copy)]
pub struct Progress {
    pub number: u64,
    pub taken: usize,
    pub printed: usize,
}

// Runs the records of a part of a log, the first of them numbered `number + 1`, and writes what they print, until no whole record or no room
// for the longest text is left.
pub fn replay(
    stakes: &mut [u64],
    offers: &mut [u64],
    books: &mut Books,
    records: &[u8],
    text: &mut [u8],
    number: u64,
) -> Progress
    requires tables_good { good_tables (tables stakes.old offers.old books.old) ≡ true }
    requires number_bound { number ≤ 2 ^ 63 }
    ensures text_after { part_run result (tables stakes.new offers.new books.new) text.new ≡ replayed (tables stakes.old offers.old books.old) records.now text.old number }
    ensures bounded { Bounded (tables stakes.new offers.new books.new) records.now text.old number result }
{
    let mut done = number;
    let mut text = Text { bytes: text, at: 0 };
    let (whole, _) = records.as_chunks::<RECORD>();
    for record in whole {
        if text.bytes.len() - text.at < LONGEST {
            break;
        }
        let call = log_file::read_record(record, 0);
        let answer = engine::act(stakes, offers, books, call);
        done += 1;
        text.write_answer(done, answer);
    }
    Progress {
        number: done,
        taken: RECORD * (done - number) as usize,
        printed: text.at,
    }
}
