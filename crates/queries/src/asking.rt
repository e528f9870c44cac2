// A question by its number.
ghost use Rattle.std.specs.Prelude.{◌≡◌};
ghost use Rattle.rules.specs.Answers.{answer_of};
ghost use Rattle.rules.specs.Books.{Books};
ghost use Rattle.books.specs.Words.{books_of};
ghost use Rattle.queries.specs.Queries.{words_seen, query_words};
ghost use Rattle.queries.specs.Asking.{question_of};
ghost use Rattle.queries.specs.inner.Question.{answered};

use crate::View;
use rules::{Account, Answer, Offer, Refusal};

// With the fields that its kind uses.
#[derive(Clone, Copy)]
enum Question {
    Stake {
        pool: u64,
        account: Account,
    },
    Accrued {
        time: u64,
        pool: u64,
        account: Account,
    },
    Pool {
        pool: u64,
    },
    StakersCount {
        pool: u64,
    },
    Offer {
        pool: u64,
        offer: Offer,
    },
}

impl Question {
    // Kind 1 stake, 2 accrued, 3 pool, 4 stakers' count, 5 offer. The fields that a kind does not use are 0.
    #[tactic(auto, unfolding(crate::specs::Asking::question_of, crate::specs::Asking::answer_of, crate::specs::Asking::unused_zero))]
    fn from_numbers(kind: u64, pool: u64, number: u64, time: u64) -> Option<Question>
        ensures { (b : Books) → answered b result ≡ question_of b kind pool number time }
    {
        let account = Account(number);
        let offer = Offer(number);
        match kind {
            1 => (time == 0).then_some(Question::Stake { pool, account }),
            2 => Some(Question::Accrued {
                time,
                pool,
                account,
            }),
            3 => (number == 0 && time == 0).then_some(Question::Pool { pool }),
            4 => (number == 0 && time == 0).then_some(Question::StakersCount { pool }),
            5 => (time == 0).then_some(Question::Offer { pool, offer }),
            _ => None,
        }
    }
}

impl View<'_> {
    pub fn ask(self, kind: u64, pool: u64, number: u64, time: u64) -> Answer
        ensures { answer_of result ≡ query_words (words_seen self.entry) (question_of (books_of (words_seen self.entry)) kind pool number time) }
    {
        let Some(question) = Question::from_numbers(kind, pool, number, time) else {
            return Err(Refusal::Malformed);
        };
        match question {
            Question::Stake { pool, account } => self.get_stake(pool, account),
            Question::Accrued {
                time,
                pool,
                account,
            } => self.accrued_yield(time, pool, account),
            Question::Pool { pool } => self.get_pool(pool),
            Question::StakersCount { pool } => self.get_stakers_count(pool),
            Question::Offer { pool, offer } => self.get_offer(pool, offer),
        }
    }
}
