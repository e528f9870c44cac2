// The static library's face: what C and Rust call. Thin over the engine, and with no precondition: any words and bytes may be lent.
// include/pasumorip.h says it for C.
#![tactic(auto)]

mod words;

ghost use Rattle.std.specs.Prelude.{◌≡◌};
ghost use Rattle.rules.specs.Terms.{assess_risk};
ghost use Rattle.rules.specs.Calls.{account_no, offer_no};
ghost use Rattle.rules.specs.Operations.{entry};
ghost use Rattle.books.specs.Words.{tables};
ghost use Rattle.books.specs.Fresh.{renewed, fresh_words};
ghost use Rattle.history.specs.Beginning.{opened};
ghost use Rattle.pasumorip.specs.Face.{answered, applied, queried, questioned, stake_looked_up, offer_looked_up, resumed, replayed_from, buffered, head_written, record_written};

use crate::words::{
    ANSWER, NUMBERS, PROGRESS, answer_words, code, number_words, progress_words, tell_lookup,
};
use books::layout::BOOKS_LENGTH;
use log_file::RECORD;
use queries::View;
use rules::{Account, Call, Entry, Offer, Refusal};

const MALFORMED: u8 = Refusal::Malformed as u8;

const BAD_TABLES: u8 = Refusal::BadTables as u8;

// The most records that may have been run before a replay.
const MOST_RECORDS: u64 = 9_223_372_036_854_775_808;

// A fresh set of tables, with the given admin.
#[unsafe(no_mangle)]
pub extern "C" fn pasumorip_fresh(
    stakes: &mut [u64],
    offers: &mut [u64],
    books: &mut [u64],
    admin: u64,
) -> u8
    ensures { renewed result (tables stakes.new offers.new books.new) ≡ fresh_words (tables stakes.old offers.old books.old) (account_no admin) }
{
    code(&books::fresh(stakes, offers, books, Account(admin)))
}

// A fresh set, with the admin of a log's head.
#[unsafe(no_mangle)]
pub extern "C" fn pasumorip_open(
    stakes: &mut [u64],
    offers: &mut [u64],
    books: &mut [u64],
    head: &[u8],
) -> u8
    ensures { renewed result (tables stakes.new offers.new books.new) ≡ opened (tables stakes.old offers.old books.old) head.now }
{
    code(&history::begin(stakes, offers, books, head))
}

// A call, as a log's record, on any tables. Bytes that are no record are refused as any malformed call is: the answer says so.
#[unsafe(no_mangle)]
#[tactic(auto, unfolding(crate::specs::Face::applied))]
pub extern "C" fn pasumorip_apply(
    stakes: &mut [u64],
    offers: &mut [u64],
    books: &mut [u64],
    bytes: &[u8],
    answer: &mut [u64],
) -> u8
    ensures { answered result (tables stakes.new offers.new books.new) answer.new ≡ applied (tables stakes.old offers.old books.old) bytes.now answer.old }
{
    let Some(room) = answer.as_mut_array::<ANSWER>() else {
        return MALFORMED;
    };
    let done = if bytes.len() == RECORD {
        engine::apply(stakes, offers, books, log_file::read_record(bytes, 0))
    } else {
        Err(Refusal::Malformed)
    };
    *room = answer_words(done);
    code(&done)
}

// A question: kind 1 stake, 2 accrued, 3 pool, 4 stakers' count, 5 offer.
#[unsafe(no_mangle)]
#[tactic(auto, unfolding(crate::specs::Face::questioned))]
pub extern "C" fn pasumorip_query(
    stakes: &[u64],
    offers: &[u64],
    books: &[u64],
    kind: u64,
    pool: u64,
    number: u64,
    time: u64,
    answer: &mut [u64],
) -> u8
    ensures { queried result answer.new ≡ questioned (tables stakes.now offers.now books.now) kind pool number time answer.old }
{
    let Some(room) = answer.as_mut_array::<NUMBERS>() else {
        return MALFORMED;
    };
    let view = View {
        stakes,
        offers,
        books,
    };
    let asked = view.ask(kind, pool, number, time);
    *room = number_words(asked);
    code(&asked)
}

// Where an account's stake row is in a pool or would be, and how many rows were read to tell it.
#[unsafe(no_mangle)]
#[tactic(auto, unfolding(crate::specs::Face::stake_looked_up))]
pub extern "C" fn pasumorip_look_up_stake(
    stakes: &[u64],
    offers: &[u64],
    books: &[u64],
    pool: u64,
    account: u64,
    answer: &mut [u64],
) -> u8
    ensures { queried result answer.new ≡ stake_looked_up (tables stakes.now offers.now books.now) pool (account_no account) answer.old }
{
    let view = View {
        stakes,
        offers,
        books,
    };
    tell_lookup(answer, view.look_up_stake(pool, Account(account)))
}

// Where an offer's row is in a pool or would be, alike: C calls each by its name.
#[unsafe(no_mangle)]
#[tactic(auto, unfolding(crate::specs::Face::offer_looked_up))]
pub extern "C" fn pasumorip_look_up_offer(
    stakes: &[u64],
    offers: &[u64],
    books: &[u64],
    pool: u64,
    offer: u64,
    answer: &mut [u64],
) -> u8
    ensures { queried result answer.new ≡ offer_looked_up (tables stakes.now offers.now books.now) pool (offer_no offer) answer.old }
{
    let view = View {
        stakes,
        offers,
        books,
    };
    tell_lookup(answer, view.look_up_offer(pool, Offer(offer)))
}

// The records of a part of a log, run on any tables, which are tested once; what they print is written to `text`.
#[unsafe(no_mangle)]
#[tactic(auto, unfolding(crate::specs::Face::replayed_from))]
pub extern "C" fn pasumorip_replay(
    stakes: &mut [u64],
    offers: &mut [u64],
    books: &mut [u64],
    records: &[u8],
    text: &mut [u8],
    progress: &mut [u64],
) -> u8
    ensures { resumed result (tables stakes.new offers.new books.new) text.new progress.new ≡ replayed_from (tables stakes.old offers.old books.old) records.now text.old progress.old }
{
    let Some(room) = progress.as_mut_array::<PROGRESS>() else {
        return MALFORMED;
    };
    let number = room[0];
    if MOST_RECORDS < number {
        return MALFORMED;
    }
    let Some(books) = books.as_mut_array::<BOOKS_LENGTH>() else {
        return BAD_TABLES;
    };
    if !books::tables_well_formed(stakes, offers, books) {
        return BAD_TABLES;
    }
    let done = history::replay(stakes, offers, books, records, text, number);
    *room = progress_words(done);
    0
}

// The pool that an invoice's risk falls to: 0 Conservative, 1 Balanced, 2 Aggressive.
#[unsafe(no_mangle)]
pub extern "C" fn pasumorip_assess_risk(age: u64, repayments: u32, defaults: u32, amount: i64) -> u8
    ensures { result ≡ assess_risk age repayments defaults amount }
{
    rules::assess_risk(age, repayments, defaults, amount) as u8
}

// The head of an admin's log, written into a lent buffer from `at` on.
#[unsafe(no_mangle)]
#[tactic(auto, unfolding(crate::specs::Face::head_written))]
pub extern "C" fn pasumorip_write_head(buffer: &mut [u8], at: usize, admin: u64) -> u8
    ensures { buffered result buffer.new ≡ head_written buffer.old at (account_no admin) }
{
    code(&log_file::write_head(buffer, at, Account(admin)))
}

// A call's record, likewise, from the fields that a record has.
#[unsafe(no_mangle)]
#[tactic(auto, unfolding(crate::specs::Face::record_written))]
pub extern "C" fn pasumorip_write_record(
    buffer: &mut [u8],
    at: usize,
    operation: u64,
    pool: u64,
    reply: u64,
    time: u64,
    signer: u64,
    subject: u64,
    other: u64,
    amount: i64,
) -> u8
    ensures { buffered result buffer.new ≡ record_written buffer.old at time (account_no signer) (entry operation pool subject other reply amount) }
{
    let fields = Entry {
        number: operation,
        pool,
        subject,
        other,
        reply,
        amount,
    };
    let call = Call {
        now: time,
        signer: Account(signer),
        operation: log_file::operation_of(fields),
    };
    code(&log_file::write_record(buffer, at, call))
}
