// The words of the crates' answers, at the front of a lent buffer that has room for them.
ghost use Rattle.std.specs.Prelude.{ℕ, List, ◌≡◌, ◌++◌, ◌≤◌, length};
ghost use Rattle.records.specs.Fields.{time_words};
ghost use Rattle.nultiway.specs.Values.{limiter_words};
ghost use Rattle.nultiway.specs.Calls.{number_of, answer_put, one_word, decision_words, quota_words};
ghost use Rattle.nultiway.specs.Calls.{float_words, flag_words};
ghost use Rattle.nultiway.specs.LimiterCalls.{shadow_words, traced_words, rates_words, key_quota_words};
ghost use Rattle.nultiway.specs.LimiterCalls.{limit_words, config_words};
ghost use Rattle.questions.specs.Refusals.{answer_of};

use crate::values::{limiter_words, put};
use gcra::{Decision, Quota};
use limiter::{Config, KeyRates, Limit, Limiter, Traced};
use questions::Refusal;
use records::fields::{flag_word, time_words};

// An answer that stands in N words of a lent buffer.
pub(crate) trait Lent<const N: usize> {
    ghost words: { Self → List ℕ };

    fn words(self) -> [u64; N]
        ensures { result ≡ words self };
}

// Writes an answer's words at the front of a buffer that has room for them, and answers 0; of a
// 'no' it answers the number, and writes nothing.
pub(crate) fn put_answer<const N: usize, T: Lent<N>>(to: &mut [u64], said: Result<T, Refusal>) -> u8
    requires { N ≤ length to.old }
    ensures value { result ≡ number_of (answer_of said) }
    ensures to_after { to.new ≡ answer_put T.words (answer_of said) to.old }
{
    match said {
        Err(no) => no.number(),
        Ok(answer) => {
            put(to, &answer.words());
            0
        }
    }
}

// Whether it is denied, and the retry time.
pub(crate) fn decision_words(decision: Decision) -> [u64; 2]
    ensures { result ≡ decision_words decision }
{
    match decision {
        Decision::Allow => [0, 0],
        Decision::Deny { retry_at } => [1, retry_at],
    }
}

// A new limiter.
impl Lent<16> for Limiter {
    ghost words = { limiter_words };

    fn words(self) -> [u64; 16] {
        limiter_words(self)
    }
}

// A decision.
impl Lent<2> for Decision {
    ghost words = { decision_words };

    fn words(self) -> [u64; 2] {
        decision_words(self)
    }
}

// How many.
impl Lent<1> for usize {
    ghost words = { one_word };

    fn words(self) -> [u64; 1] {
        [self as u64]
    }
}

// The number of a change's answer.
pub(crate) fn change_number(said: Result<(), Refusal>) -> u8
    ensures { result ≡ number_of (answer_of said) }
{
    match said {
        Err(no) => no.number(),
        Ok(()) => 0,
    }
}

// Whether there is a shadow, and its decision.
fn shadow_words(shadow: Option<Decision>) -> [u64; 3]
    ensures { result ≡ shadow_words shadow }
{
    match shadow {
        None => [0, 0, 0],
        Some(decision) => {
            let w = decision_words(decision);
            [1, w[0], w[1]]
        }
    }
}

// A decision and the shadow's.
fn traced_words(traced: Traced) -> [u64; 5]
    ensures { result ≡ decision_words traced.decision ++ shadow_words traced.shadow }
{
    let decision = traced.decision;
    let shadow = traced.shadow;
    let d = decision_words(decision);
    let s = shadow_words(shadow);
    [d[0], d[1], s[0], s[1], s[2]]
}

// A decision and the shadow's.
impl Lent<5> for Traced {
    ghost words = { traced_words };

    fn words(self) -> [u64; 5] {
        traced_words(self)
    }
}

// A quota: its interval and its burst.
impl Lent<2> for Quota {
    ghost words = { quota_words };

    fn words(self) -> [u64; 2] {
        [self.interval, self.burst as u64]
    }
}

// A float's bits.
impl Lent<1> for f64 {
    ghost words = { float_words };

    fn words(self) -> [u64; 1] {
        [float::to_bits(self)]
    }
}

// Whether a key is tracked, and its three rates.
impl Lent<4> for Option<KeyRates> {
    ghost words = { rates_words };

    fn words(self) -> [u64; 4] {
        match self {
            None => [0; 4],
            Some(rates) => rates_words(rates),
        }
    }
}

fn rates_words(rates: KeyRates) -> [u64; 4]
    ensures { result ≡ rates_words (Some rates) }
{
    [
        1,
        float::to_bits(rates.requests_per_sec),
        float::to_bits(rates.denied_per_sec),
        float::to_bits(rates.shadow_denied_per_sec),
    ]
}

// Whether a key is tracked, and its quota.
impl Lent<3> for Option<Quota> {
    ghost words = { key_quota_words };

    fn words(self) -> [u64; 3] {
        match self {
            None => [0; 3],
            Some(quota) => [1, quota.interval, quota.burst as u64],
        }
    }
}

// Whether a key is tracked, and its limit.
impl Lent<3> for Option<Limit> {
    ghost words = { limit_words };

    fn words(self) -> [u64; 3] {
        match self {
            None => [0; 3],
            Some(limit) => [1, float::to_bits(limit.rate), limit.burst as u64],
        }
    }
}

// The words of the settings, without the cap and the last tick.
pub(crate) fn config_words(config: Config) -> [u64; 9]
    ensures { result ≡ config_words config }
{
    let limit = config.limit;
    [
        float::to_bits(limit.rate),
        limit.burst as u64,
        float::to_bits(config.alpha),
        float::to_bits(config.floor_factor),
        config.cooldown,
        config.hot_set_size as u64,
        config.max_tracked_keys as u64,
        config.demand_time_constant,
        config.table_size as u64,
    ]
}

// The settings, without the cap and the last tick.
impl Lent<9> for Config {
    ghost words = { config_words };

    fn words(self) -> [u64; 9] {
        config_words(self)
    }
}

// Whether there is a time, and the time.
impl Lent<2> for Option<u64> {
    ghost words = { time_words };

    fn words(self) -> [u64; 2] {
        time_words(self)
    }
}

// A flag: 0 or 1.
impl Lent<1> for bool {
    ghost words = { flag_words };

    fn words(self) -> [u64; 1] {
        [flag_word(self)]
    }
}

// A number.
impl Lent<1> for u64 {
    ghost words = { one_word };

    fn words(self) -> [u64; 1] {
        [self]
    }
}
