// Records of the log as calls: a record's fields by name, and the operation case that carries its own.
ghost use Rattle.std.specs.Prelude.{◌≡◌, false, cond, [], ◌∷◌, ◌+◌, ◌≤◌, eqb, length, take, drop};
ghost use Rattle.rules.specs.Table.{all};
ghost use Rattle.rules.specs.Books.{is_zero};
ghost use Rattle.rules.specs.Step.{malformed};
ghost use Rattle.rules.specs.declared.Operation.TheVariants.{Unknown};
ghost use Rattle.log_file.specs.Records.{record_at, stake_call, pay_call, reserve_call, claim_call, rate_call, operation_of, record_bytes, record_of};
ghost use Rattle.log_file.specs.Writer.{record_text};

use crate::words::word_at;
use rules::{
    Account, Call, ClaimCall, Entry, Invoice, Offer, Operation, PayCall, RateCall, ReserveCall,
    StakeCall,
};

// The bytes of a record.
pub const RECORD: usize = 48;

// A record as it stands. `zeros` is the five bytes that are to be 0.
#[derive(Clone, Copy)]
pub struct Record {
    pub zeros: u64,
    pub now: u64,
    pub signer: u64,
    pub fields: Entry,
}

fn record_at(bytes: &[u8], at: usize) -> Record
    requires { at + record_bytes ≤ length bytes.now }
    ensures { result ≡ record_at bytes.now at }
{
    Record {
        zeros: word_at(bytes, at) / 0x100_0000,
        now: word_at(bytes, at + 8),
        signer: word_at(bytes, at + 16),
        fields: Entry {
            number: u64::from(bytes[at]),
            pool: u64::from(bytes[at + 1]),
            subject: word_at(bytes, at + 24),
            other: word_at(bytes, at + 32),
            reply: u64::from(bytes[at + 2]),
            amount: whole::of_word(word_at(bytes, at + 40)),
        },
    }
}

// Each kind of call by a function of its own: an `impl From` cannot stand here, since both types are of `rules`.
fn stake_call(e: Entry) -> StakeCall
    ensures { result ≡ stake_call e }
{
    StakeCall {
        pool: e.pool,
        staker: Account(e.subject),
        amount: e.amount,
    }
}

fn pay_call(e: Entry) -> PayCall
    ensures { result ≡ pay_call e }
{
    PayCall {
        pool: e.pool,
        reply: e.reply,
        invoice: Invoice(e.subject),
        beneficiary: Account(e.other),
        amount: e.amount,
    }
}

fn reserve_call(e: Entry) -> ReserveCall
    ensures { result ≡ reserve_call e }
{
    ReserveCall {
        pool: e.pool,
        offer: Offer(e.subject),
        amount: e.amount,
    }
}

fn claim_call(e: Entry) -> ClaimCall
    ensures { result ≡ claim_call e }
{
    ClaimCall {
        pool: e.pool,
        offer: Offer(e.subject),
        lender: Account(e.other),
        amount: e.amount,
    }
}

fn rate_call(e: Entry) -> RateCall
    ensures { result ≡ rate_call e }
{
    RateCall {
        pool: e.pool,
        rate: e.amount,
    }
}

// Whether some fields of an entry are 0; the places of others are given as 0.
fn are_nil(pool: u64, subject: u64, other: u64, reply: u64, amount: i64) -> bool
    ensures { result ≡ all (eqb pool 0 ∷ eqb subject 0 ∷ eqb other 0 ∷ eqb reply 0 ∷ is_zero amount ∷ []) }
{
    (pool == 0) & (subject == 0) & (other == 0) & (reply == 0) & (amount == 0)
}

fn known_if(test: bool, operation: Operation) -> Operation
    ensures { result ≡ cond test operation Unknown }
{
    if test { operation } else { Operation::Unknown }
}

// The case of an operation number, with the fields that it does not use tested: a match over the log's numbers with a catch-all, as document 01 names it.
pub fn operation_of(e: Entry) -> Operation
    ensures { result ≡ operation_of e }
{
    let number = e.number;
    let subject_only = are_nil(0, 0, e.other, e.reply, 0);
    let no_reply = are_nil(0, 0, 0, e.reply, 0);
    let amount_only = are_nil(0, e.subject, e.other, e.reply, 0);
    let nothing = are_nil(e.pool, e.subject, e.other, e.reply, e.amount);
    let account_only = are_nil(e.pool, 0, e.other, e.reply, e.amount);
    match number {
        1 => known_if(subject_only, Operation::Stake(stake_call(e))),
        2 => known_if(subject_only, Operation::Withdraw(stake_call(e))),
        3 => Operation::Pay(pay_call(e)),
        4 => known_if(subject_only, Operation::Reserve(reserve_call(e))),
        5 => known_if(no_reply, Operation::Claim(claim_call(e))),
        6 => known_if(amount_only, Operation::Rate(rate_call(e))),
        7 => known_if(nothing, Operation::Pause),
        8 => known_if(nothing, Operation::Unpause),
        9 => known_if(account_only, Operation::PayoutCaller(Account(e.subject))),
        _ => Operation::Unknown,
    }
}

// A call that is not Malformed is written as the bytes that it was read from.
pub fn read_record(bytes: &[u8], at: usize) -> Call
    requires { at + record_bytes ≤ length bytes.now }
    ensures value { result ≡ record_of bytes.now at }
    ensures written_back { malformed result ≡ false → record_text result ≡ take record_bytes (drop at bytes.now) }
{
    let r = record_at(bytes, at);
    Call {
        now: r.now,
        signer: Account(r.signer),
        operation: known_if(r.zeros == 0, operation_of(r.fields)),
    }
}
