// Code 1: a call whose own fields miss what they must meet, whatever the tables.
ghost use Rattle.std.specs.Prelude.{◌≡◌};
ghost use Rattle.rules.specs.Table.{all};
ghost use Rattle.rules.specs.Calls.{Pay, Claim, Rate};
ghost use Rattle.rules.specs.Step.{field_tests, malformed};

use crate::fields::{is_key, is_number, is_pool, is_reply, is_time};
use crate::limits::FLAT;
use crate::{Call, ClaimCall, Operation, PayCall, RateCall};

fn pay_fields(c: PayCall) -> bool
    ensures { result ≡ all (field_tests (Pay c)) }
{
    is_pool(c.pool) & is_number(c.invoice.0) & is_number(c.beneficiary.0) & is_reply(c.reply)
}

fn claim_fields(c: ClaimCall) -> bool
    ensures { result ≡ all (field_tests (Claim c)) }
{
    is_pool(c.pool) & is_number(c.offer.0) & is_number(c.lender.0)
}

fn rate_fields(c: RateCall) -> bool
    ensures { result ≡ all (field_tests (Rate c)) }
{
    (c.pool == FLAT) & (0 <= c.rate)
}

fn fields_fit(o: Operation) -> bool
    ensures { result ≡ all (field_tests o) }
{
    match o {
        Operation::Stake(c) => is_key(c.pool, c.staker.0),
        Operation::Withdraw(c) => is_key(c.pool, c.staker.0),
        Operation::Pay(c) => pay_fields(c),
        Operation::Reserve(c) => is_key(c.pool, c.offer.0),
        Operation::Claim(c) => claim_fields(c),
        Operation::Rate(c) => rate_fields(c),
        Operation::Pause => true,
        Operation::Unpause => true,
        Operation::PayoutCaller(caller) => is_number(caller.0),
        Operation::Unknown => false,
    }
}

pub fn is_malformed(call: Call) -> bool
    ensures { result ≡ malformed call }
{
    !(is_time(call.now) & is_number(call.signer.0) & fields_fit(call.operation))
}
