// Many checks in one call: the questions of the whole are asked once, and then each pair of a key
// and a reading is checked after those before it.
ghost use Rattle.std.specs.Prelude.{◌≡◌, ◌+◌, ◌≤◌, length};
ghost use Rattle.records.specs.Words.{paste};
ghost use Rattle.questions.specs.Questions.{given, first_no};
ghost use Rattle.limiter.specs.State as State;
ghost use Rattle.limiter.specs.Calls as Calls;
ghost use Rattle.limiter.specs.Steps.ManySteps.{PairsReady, ChecksPairs};
ghost use Rattle.questions.specs.Refusals.{asked, answer_of};

use crate::{Answered, Changed, Limiter, checks};
use gcra::Decision;
use questions::Refusal;

// The words of a key and its reading, and of an answer.
const PAIR_WORDS: usize = 2;

const ANSWER_WORDS: usize = 3;

// The words of a decision: no 'no', whether it is denied, and the retry time.
fn decision_words(decision: Decision) -> [u64; 3]
    ensures { result ≡ Calls.answer_words (given decision) }
{
    match decision {
        Decision::Allow => [0, 0, 0],
        Decision::Deny { retry_at } => [0, 1, retry_at],
    }
}

// The words of an answer: the number of a 'no', or the decision's.
fn answer_words(answer: Result<Decision, Refusal>) -> [u64; 3]
    ensures { result ≡ Calls.answer_words (answer_of answer) }
{
    match answer {
        Err(no) => [no.number() as u64, 0, 0],
        Ok(decision) => decision_words(decision),
    }
}

// Writes an answer's words at an index.
fn put_answer(out: &mut [u64], at: usize, answer: Result<Decision, Refusal>)
    requires { at + 3 ≤ length out.old }
    ensures { out.new ≡ paste at (Calls.answer_words (answer_of answer)) out.old }
{
    out[at..at + ANSWER_WORDS].copy_from_slice(&answer_words(answer));
}

// Checks each of `count` pairs at the settings' limit, and writes its answer.
fn check_pairs(
    limiter: Limiter,
    keys: &mut [u64],
    list: &[u64],
    count: usize,
    cluster_size: usize,
    out: &mut [u64],
) -> Limiter
    requires { PairsReady limiter keys.old list.now count out.old }
    ensures { ChecksPairs limiter keys.old list.now count cluster_size out.old result
        keys.new out.new }
{
    let limit = limiter.config.limit;
    let mut left = limiter;
    for i in 0..count {
        let at = i * PAIR_WORDS;
        let checked = checks::check_key(left, keys, list[at], limit, list[at + 1], cluster_size);
        put_answer(out, i * ANSWER_WORDS, checked.answer);
        left = checked.limiter;
    }
    left
}

impl Limiter {
    // The first of questions 1, 2, 7 and 16 that is answered 'no', if one is.
    fn ask_each(
        self,
        keys: &[u64],
        hot: &[u64],
        shadows: &[u64],
        list: &[u64],
        count: usize,
        cluster_size: usize,
        out: &[u64],
    ) -> Result<(), Refusal>
        ensures { asked result ≡ first_no (Calls.each_asked self (State.tables keys.now hot.now shadows.now) list.now count cluster_size
            out.now) }
    {
        if !records::fits(list.len(), PAIR_WORDS, count) {
            return Err(Refusal::ShortBuffer);
        }
        self.ask_cluster(keys, hot, shadows, cluster_size)?;
        if !records::fits(out.len(), ANSWER_WORDS, count) {
            return Err(Refusal::ShortOutput);
        }
        Ok(())
    }

    // `check` of many: `count` pairs of a key and a reading; three words of answer each.
    pub fn check_each(
        self,
        keys: &mut [u64],
        hot: &[u64],
        shadows: &[u64],
        list: &[u64],
        count: usize,
        cluster_size: usize,
        out: &mut [u64],
    ) -> Changed
        ensures { Calls.ChecksEach self (State.tables keys.old hot.now shadows.now) list.now count cluster_size
            out.old result (State.tables keys.new hot.now shadows.now) out.new }
    {
        if let Err(no) = self.ask_each(keys, hot, shadows, list, count, cluster_size, out) {
            return Answered::refused(no, self);
        }
        Changed {
            answer: Ok(()),
            limiter: check_pairs(self, keys, list, count, cluster_size, out),
        }
    }
}
