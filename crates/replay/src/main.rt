// Replays a log from standard input and prints what it answers. Memory is constant: the tables, and a buffer each for records and text.
// What is run and what is printed `history` says, on slices; here are the reads and the writes.
#![tactic(auto)]

mod failure;
mod input;

ghost use Rattle.std.specs.Prelude.{◌≡◌, true, OnOk, ◌*◌, ◌≤◌, ◌<◌, ◌^◌, length, take};
ghost use Rattle.std.specs.Io.KnownBytes.{Appends};
ghost use Rattle.rules.specs.Limits.{most_stakes, most_offers};
ghost use Rattle.books.specs.Layout.{stake_width, offer_width};
ghost use Rattle.books.specs.Words.{tables, good_tables};
ghost use Rattle.books.specs.Fresh.{lent};
ghost use Rattle.log_file.specs.Records.{record_bytes};
ghost use Rattle.log_file.specs.Lines.{longest};
ghost use Rattle.replay.specs.Turns.{Turning, Finished};
ghost use Rattle.replay.specs.Printed.{Replayed};
ghost use Rattle.replay.specs.Telling.{Telling, Ran};

use books::Books;
use books::layout::{BOOKS_LENGTH, OFFER_WIDTH, STAKE_WIDTH};
use failure::Failure;
use history::Position;
use log_file::{HEAD, RECORD};
use rules::limits::{MOST_OFFERS, MOST_STAKES};
use std::io::{Read, Write};
use std::process::ExitCode;

// As many rows as document 01 allows.
const STAKE_WORDS: usize = MOST_STAKES * STAKE_WIDTH;

const OFFER_WORDS: usize = MOST_OFFERS * OFFER_WIDTH;

// For the log and for the text, so that few reads and writes are made.
const BUFFER: usize = 65_536;

// No run comes to so many records: the loop over them ends because it counts up to here.
const MOST_RECORDS: u64 = 0x8000_0000_0000_0000;

// Writes the first bytes of a text.
fn print<W: Write>(answers: &mut W, text: &[u8], count: usize) -> Result<(), Failure>
    requires { count ≤ length text.now }
    ensures { OnOk result (Appends (W.contents answers.old) (W.contents answers.new) (take count text.now)) }
{
    answers.write_all(&text[..count]).map_err(Failure::Writing)
}

// Reads until a record is there or the input ends, takes the turn over what is there, and prints its text. Answers where the log goes on, if it does.
fn turn<R: Read, W: Write>(
    log: &mut R,
    answers: &mut W,
    stakes: &mut [u64],
    offers: &mut [u64],
    books: &mut Books,
    bytes: &mut [u8],
    text: &mut [u8],
    place: Position,
) -> Result<Option<Position>, Failure>
    requires tables_good { good_tables (tables stakes.old offers.old books.old) ≡ true }
    requires room_for_record { record_bytes ≤ length bytes.old }
    requires room_for_text { longest ≤ length text.old }
    requires number_bound { place.number < 2 ^ 63 }
    requires there_in_bounds { place.there ≤ length bytes.old }
    ensures turning { Turning (tables stakes.old offers.old books.old) bytes.old text.old place.number place.there (tables stakes.new offers.new books.new) bytes.new text.new result }
    ensures telling { Telling (tables stakes.old offers.old books.old) bytes.old text.old place.number place.there (tables stakes.new offers.new books.new) bytes.new text.new (R.remaining log.old) (R.remaining log.new) (W.contents answers.old) (W.contents answers.new) result }
{
    let there = input::fill(log, bytes, place.there, RECORD)?;
    let done = history::take_turn(stakes, offers, books, bytes, there, text, place.number);
    print(answers, text, done.printed)?;
    Ok(done.next)
}

// Runs the records to the end of the input, and prints all that they print.
fn run<R: Read, W: Write>(
    log: &mut R,
    answers: &mut W,
    stakes: &mut [u64],
    offers: &mut [u64],
    books: &mut Books,
    bytes: &mut [u8],
    text: &mut [u8],
) -> Result<(), Failure>
    requires tables_good { good_tables (tables stakes.old offers.old books.old) ≡ true }
    requires room_for_record { record_bytes ≤ length bytes.old }
    requires room_for_text { longest ≤ length text.old }
    ensures finished { Finished (tables stakes.old offers.old books.old) (tables stakes.new offers.new books.new) text.new result }
    ensures ran { OnOk result (Ran (tables stakes.old offers.old books.old) (tables stakes.new offers.new books.new) (R.remaining log.old) (R.remaining log.new) (W.contents answers.old) (W.contents answers.new)) }
{
    let mut place = Position {
        number: 0,
        there: 0,
    };
    while place.number < MOST_RECORDS {
        match turn(log, answers, stakes, offers, books, bytes, text, place)? {
            Some(next) => place = next,
            None => return Ok(()),
        }
    }
    Err(Failure::TooManyRecords)
}

// Replays a log to its end, or to that of a bad head, and prints all that it prints.
fn replay_log<R: Read, W: Write>(
    log: &mut R,
    answers: &mut W,
    stakes: &mut [u64],
    offers: &mut [u64],
    books: &mut Books,
    bytes: &mut [u8],
    text: &mut [u8],
) -> Result<(), Failure>
    requires tables_lent { lent (tables stakes.old offers.old books.old) ≡ true }
    requires room_for_record { record_bytes ≤ length bytes.old }
    requires room_for_text { longest ≤ length text.old }
    ensures { OnOk result (Replayed (tables stakes.old offers.old books.old) (tables stakes.new offers.new books.new) (R.remaining log.old) (R.remaining log.new) (W.contents answers.old) (W.contents answers.new)) }
{
    let mut head = [0u8; HEAD];
    let there = input::fill(log, &mut head, 0, HEAD)?;
    let first = history::start(stakes, offers, books, &head[..there], text);
    print(answers, text, first.printed)?;
    if first.next.is_none() {
        return Ok(());
    }
    run(log, answers, stakes, offers, books, bytes, text)
}

// An array of one value, of which its callers know the length alone: no proof looks into so long a list.
fn array_of<T: Copy, const N: usize>(value: T) -> [T; N]
    ensures { length result ≡ N }
{
    [value; N]
}

// The status is 0 but where a read or a write failed, which standard error names.
fn main(rt: HostRuntime) -> ExitCode {
    let mut stakes: [u64; STAKE_WORDS] = array_of(0);
    let mut offers: [u64; OFFER_WORDS] = array_of(0);
    let mut books = [0u64; BOOKS_LENGTH];
    let mut bytes: [u8; BUFFER] = array_of(0);
    let mut text: [u8; BUFFER] = array_of(0);
    let mut log = rt.stdin();
    let mut answers = rt.stdout();
    let replayed = replay_log(
        &mut log,
        &mut answers,
        &mut stakes,
        &mut offers,
        &mut books,
        &mut bytes,
        &mut text,
    );
    match replayed {
        Ok(()) => ExitCode::SUCCESS,
        Err(failure) => {
            let _ = eprintln!(rt; "replay: {failure}");
            ExitCode::FAILURE
        }
    }
}
