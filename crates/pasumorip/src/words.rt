// Answers as words.
ghost use Rattle.std.specs.Prelude.{◌≡◌, [], ◌∷◌};
ghost use Rattle.rules.specs.Answers.{answer_of, due, told_code};
ghost use Rattle.queries.specs.Lookups.{lookup_answer};
ghost use Rattle.pasumorip.specs.Face.{answer_words, number_words, place_words, lookup_words, progress_words, queried, looked_up};

use crate::MALFORMED;
use history::Progress;
use rows::Lookup;
use rules::{Answer, Direction, Refusal, Transfer};

// The words of a call's, of a query's and of a lookup's answer, and of a replay's progress.
pub const ANSWER: usize = 9;

pub const NUMBERS: usize = 3;

const LOOKUP: usize = 4;

pub const PROGRESS: usize = 3;

// The code of an answer as C gets it, 0 where it is done.
pub fn code<T>(answer: &Result<T, Refusal>) -> u8
    ensures { result ≡ told_code answer.now }
{
    match answer {
        Ok(_) => 0,
        Err(refusal) => refusal.code() as u8,
    }
}

// A transfer's kind, account and amount, all 0 where none is due.
fn transfer_words(transfer: Option<Transfer>) -> [u64; 3]
    ensures { let t = due transfer in result ≡ (t.kind ∷ t.account.0 ∷ t.amount ∷ []) }
{
    let Some(due) = transfer else {
        return [0, 0, 0];
    };
    let kind = match due.direction {
        Direction::In => 1,
        Direction::Out => 2,
    };
    [kind, due.account.0, due.amount]
}

// A call's: code, two numbers, two transfers.
pub fn answer_words(answer: Answer) -> [u64; ANSWER]
    ensures { result ≡ answer_words (answer_of answer) }
{
    match answer {
        Ok(done) => {
            let first = whole::to_word(done.first);
            let second = whole::to_word(done.second);
            let one = transfer_words(done.one);
            let two = transfer_words(done.two);
            [
                0, first, second, one[0], one[1], one[2], two[0], two[1], two[2],
            ]
        }
        Err(refusal) => [refusal.code(), 0, 0, 0, 0, 0, 0, 0, 0],
    }
}

// A query's: code, two numbers.
pub fn number_words(answer: Answer) -> [u64; NUMBERS]
    ensures { result ≡ number_words (answer_of answer) }
{
    match answer {
        Ok(done) => [0, whole::to_word(done.first), whole::to_word(done.second)],
        Err(refusal) => [refusal.code(), 0, 0],
    }
}

// 1 and where a row is, or 0 and where it would be.
fn place_words(place: Result<usize, usize>) -> [u64; 2]
    ensures { result ≡ place_words place }
{
    match place {
        Ok(i) => [1, i as u64],
        Err(i) => [0, i as u64],
    }
}

// A lookup's: code, place, the rows read.
fn lookup_words(answer: Result<Lookup, Refusal>) -> [u64; LOOKUP]
    ensures { result ≡ lookup_words (lookup_answer answer) }
{
    match answer {
        Ok(found) => {
            let place = place_words(found.place);
            [0, place[0], place[1], found.reads as u64]
        }
        Err(refusal) => [refusal.code(), 0, 0, 0],
    }
}

// Told in words of the right number, and refused in any others.
pub fn tell_lookup(words: &mut [u64], answer: Result<Lookup, Refusal>) -> u8
    ensures { queried result words.new ≡ looked_up (lookup_answer answer) words.old }
{
    let Some(room) = words.as_mut_array::<LOOKUP>() else {
        return MALFORMED;
    };
    *room = lookup_words(answer);
    code(&answer)
}

// How far a replay got.
pub fn progress_words(done: Progress) -> [u64; PROGRESS]
    ensures { result ≡ progress_words done }
{
    [done.number, done.taken as u64, done.printed as u64]
}
