// The log's head and records, written into a lent buffer from a place on. A write that is refused changes nothing.
ghost use Rattle.std.specs.Prelude.{◌≡◌, Some, OnOk, ◌+◌, ◌%◌, ◌≤◌, length, take, drop};
ghost use Rattle.log_file.specs.Opening.{head_bytes, head_of};
ghost use Rattle.log_file.specs.Records.{record_bytes, record_of};
ghost use Rattle.log_file.specs.Written.{Wrote};
ghost use Rattle.log_file.specs.Writer.{first_text, field_text, head_text, after, write_head, write_record};

use crate::entries::entry_of;
use crate::header::{HEAD, MARK};
use crate::records::RECORD;
use crate::texts::Text;
use rules::{Account, Call, Entry, Refusal, is_malformed};

impl Text<'_> {
    fn put_head(&mut self, admin: u64)
        requires { self.old.at + head_bytes ≤ length self.old.bytes.now }
        ensures { Wrote self.old (head_text (record { 0 = admin })) self.new }
    {
        self.put_bytes(&MARK);
        self.put_word(admin);
    }

    // The first eight bytes of a record.
    fn put_first(&mut self, number: u64, pool: u64, reply: u64)
        requires { self.old.at + 8 ≤ length self.old.bytes.now }
        ensures { Wrote self.old (first_text number pool reply) self.new }
    {
        self.put_bytes(&[low(number), low(pool), low(reply), 0, 0, 0, 0, 0]);
    }

    fn put_fields(&mut self, time: u64, signer: u64, e: Entry)
        requires { self.old.at + record_bytes ≤ length self.old.bytes.now }
        ensures { Wrote self.old (field_text time signer e) self.new }
    {
        self.put_first(e.number, e.pool, e.reply);
        self.put_word(time);
        self.put_word(signer);
        self.put_word(e.subject);
        self.put_word(e.other);
        self.put_word(whole::to_word(e.amount));
    }
}

fn low(word: u64) -> u8
    ensures { result ≡ word % 256 }
{
    word.to_le_bytes()[0]
}

// The head of an admin's log. Where it is done, the head reads back as the admin's.
#[tactic(auto, using(crate::proofs::Told::head_refused, crate::proofs::Told::head_full, crate::proofs::Told::head_done, crate::proofs::Told::head_reads))]
pub fn write_head(buffer: &mut [u8], at: usize, admin: Account) -> Result<usize, Refusal>
    ensures outcome { after result buffer.new ≡ write_head buffer.old at admin }
    ensures head_back { OnOk result (head_of (take head_bytes (drop at buffer.new)) ≡ Some admin) }
{
    if admin.0 == 0 {
        return Err(Refusal::Malformed);
    }
    if buffer.len().saturating_sub(at) < HEAD {
        return Err(Refusal::TableFull);
    }
    let mut text = Text { bytes: buffer, at };
    text.put_head(admin.0);
    Ok(HEAD)
}

// A call's record. Where it is done, the record reads back as the call.
#[tactic(auto, using(crate::proofs::Told::record_refused, crate::proofs::Told::record_full))]
pub fn write_record(buffer: &mut [u8], at: usize, call: Call) -> Result<usize, Refusal>
    ensures outcome { after result buffer.new ≡ write_record buffer.old at call }
    ensures record_back { OnOk result (record_of buffer.new at ≡ call) }
{
    if is_malformed(call) {
        return Err(Refusal::Malformed);
    }
    if buffer.len().saturating_sub(at) < RECORD {
        return Err(Refusal::TableFull);
    }
    let mut text = Text { bytes: buffer, at };
    text.put_fields(call.now, call.signer.0, entry_of(call.operation));
    Ok(RECORD)
}
