// An operation as an entry of the log, the definition's table as code: a later operation is written by its line here.
ghost use Rattle.std.specs.Prelude.{◌≡◌};
ghost use Rattle.rules.specs.Operations.{entry, entry_of};

use rules::{Entry, Operation};

fn filled(number: u64, pool: u64, subject: u64, other: u64, reply: u64, amount: i64) -> Entry
    ensures { result ≡ entry number pool subject other reply amount }
{
    Entry {
        number,
        pool,
        subject,
        other,
        reply,
        amount,
    }
}

// Columns: number, pool, subject, other, reply, amount.
pub fn entry_of(o: Operation) -> Entry
    ensures { result ≡ entry_of o }
{
    match o {
        Operation::Stake(c) => filled(1, c.pool, c.staker.0, 0, 0, c.amount),
        Operation::Withdraw(c) => filled(2, c.pool, c.staker.0, 0, 0, c.amount),
        Operation::Pay(c) => filled(3, c.pool, c.invoice.0, c.beneficiary.0, c.reply, c.amount),
        Operation::Reserve(c) => filled(4, c.pool, c.offer.0, 0, 0, c.amount),
        Operation::Claim(c) => filled(5, c.pool, c.offer.0, c.lender.0, 0, c.amount),
        Operation::Rate(c) => filled(6, c.pool, 0, 0, 0, c.rate),
        Operation::Pause => filled(7, 0, 0, 0, 0, 0),
        Operation::Unpause => filled(8, 0, 0, 0, 0, 0),
        Operation::PayoutCaller(caller) => filled(9, 0, caller.0, 0, 0, 0),
        Operation::Unknown => filled(0, 0, 0, 0, 0, 0),
    }
}
