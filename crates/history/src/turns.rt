// What the replay program does next: at a log's head, and at each part of the log that comes. It reads and prints; all else is here.
ghost use Rattle.std.specs.Prelude.{◌≡◌, true, OnSome, ◌≤◌, ◌^◌, length};
ghost use Rattle.books.specs.Words.{tables, good_tables};
ghost use Rattle.books.specs.Fresh.{lent};
ghost use Rattle.log_file.specs.Lines.{longest};
ghost use Rattle.history.specs.Turns.{started, start_of, turned, turn_of};
ghost use Rattle.history.specs.Bounds.{Onward};

use crate::begin;
use crate::buffer::advance;
use books::Books;
use log_file::{RECORD, Text};

// A place in a log: records in all so far, and bytes of the log that are at the front of the buffer.
#[derive(Clone, Copy, Debug, PartialEq, Eq)]
pub struct Position {
    pub number: u64,
    pub there: usize,
}

// The place behind the turn, bytes of text to print, and where the log goes on, if it does: at that place.
#[derive(Clone, Copy, Debug, PartialEq, Eq)]
pub struct Turn {
    pub place: Position,
    pub printed: usize,
    pub next: Option<Position>,
}

// The turn at a log's head: the tables that it begins and the opening, or that the head is bad.
pub fn start(
    stakes: &mut [u64],
    offers: &mut [u64],
    books: &mut Books,
    head: &[u8],
    text: &mut [u8],
) -> Turn
    requires tables_lent { lent (tables stakes.old offers.old books.old) ≡ true }
    requires room_for_text { longest ≤ length text.old }
    ensures text_after { started result (tables stakes.new offers.new books.new) text.new ≡ start_of (tables stakes.old offers.old books.old) head.now text.old }
    ensures printed_in_bounds { result.printed ≤ length text.old }
    ensures good_to_go_on { OnSome result.next (good_tables (tables stakes.new offers.new books.new) ≡ true) }
{
    let mut text = Text { bytes: text, at: 0 };
    let place = Position {
        number: 0,
        there: 0,
    };
    if begin(stakes, offers, books, head).is_err() {
        text.write_bad_head();
        return Turn {
            place,
            printed: text.at,
            next: None,
        };
    }
    text.write_opening();
    Turn {
        place,
        printed: text.at,
        next: Some(place),
    }
}

// The turn at the first `there` bytes of a buffer, after `number` records: runs those that are whole; where none is, the log ends.
pub fn take_turn(
    stakes: &mut [u64],
    offers: &mut [u64],
    books: &mut Books,
    bytes: &mut [u8],
    there: usize,
    text: &mut [u8],
    number: u64,
) -> Turn
    requires tables_good { good_tables (tables stakes.old offers.old books.old) ≡ true }
    requires number_bound { number ≤ 2 ^ 63 }
    requires there_in_bounds { there ≤ length bytes.old }
    requires room_for_text { longest ≤ length text.old }
    ensures text_after { turned result (tables stakes.new offers.new books.new) bytes.new text.new ≡ turn_of (tables stakes.old offers.old books.old) bytes.old there text.old number }
    ensures onward { Onward (tables stakes.new offers.new books.new) there text.old number result }
{
    if there < RECORD {
        let mut text = Text { bytes: text, at: 0 };
        text.write_ending(number, there as u64);
        return Turn {
            place: Position { number, there },
            printed: text.at,
            next: None,
        };
    }
    let done = advance(stakes, offers, books, bytes, there, text, number);
    let place = Position {
        number: done.number,
        there: there - done.taken,
    };
    Turn {
        place,
        printed: done.printed,
        next: Some(place),
    }
}
