// Whether a call's or a question's own fields meet their needs. Pools and replies are matched with a catch-all, the form that document 01 names for them.
ghost use Rattle.std.specs.Prelude.{◌≡◌, [], ◌∷◌, leb};
ghost use Rattle.rules.specs.Limits.{last_time, last_reply, is_pool, is_number};
ghost use Rattle.rules.specs.Table.{all};

use crate::limits::LAST_TIME;

#[tactic(auto, unfolding(crate::specs::Limits::is_pool))]
pub fn is_pool(pool: u64) -> bool
    ensures { result ≡ is_pool pool }
{
    match pool {
        0..=3 => true,
        _ => false,
    }
}

// The registry's.
pub fn is_reply(reply: u64) -> bool
    ensures { result ≡ leb reply last_reply }
{
    match reply {
        0..=2 => true,
        _ => false,
    }
}

// Of an account, an offer or an invoice: 0 means none.
pub fn is_number(number: u64) -> bool
    ensures { result ≡ is_number number }
{
    number != 0
}

pub fn is_time(time: u64) -> bool
    ensures { result ≡ leb time last_time }
{
    time <= LAST_TIME
}

// A pool and a number: what a row is asked for by.
pub fn is_key(pool: u64, number: u64) -> bool
    ensures { result ≡ all (is_pool pool ∷ is_number number ∷ []) }
{
    is_pool(pool) & is_number(number)
}
