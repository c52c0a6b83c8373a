// Calls on a quota or on `step` alone.
ghost use Rattle.nultiway.specs.LoneCalls as Calls;

use crate::answers::{decision_words, put_answer};
use crate::values::put;
use gcra::Quota;

// The words of a quota's answer: interval and burst.
pub const QUOTA_WORDS: usize = 2;

// The words of a step's answer: a decision, and the TAT.
pub const STEP_WORDS: usize = 3;

// Makes the quota of a whole number of requests a second: interval and burst.
#[unsafe(no_mangle)]
pub extern "C" fn nultiway_quota_new(rate: u32, burst: u32, answer: &mut [u64]) -> u8
    ensures { Calls.QuotaNew rate burst answer.old result answer.new }
{
    if answer.len() < QUOTA_WORDS {
        return 1;
    }
    put_answer(answer, Quota::new(rate, burst))
}

// Makes the quota of any rate, the longest interval where it is too slow or no rate: interval and
// burst.
#[unsafe(no_mangle)]
pub extern "C" fn nultiway_quota_per_second(rate: f64, burst: u32, answer: &mut [u64]) -> u8
    ensures { Calls.QuotaPerSecond rate burst answer.old result answer.new }
{
    if answer.len() < QUOTA_WORDS {
        return 1;
    }
    put_answer(answer, Quota::per_second(rate, burst))
}

// Reads the quota that a packed word holds: interval and burst.
#[unsafe(no_mangle)]
pub extern "C" fn nultiway_quota_unpack(word: u64, answer: &mut [u64]) -> u8
    ensures { Calls.QuotaUnpack word answer.old result answer.new }
{
    if answer.len() < QUOTA_WORDS {
        return 1;
    }
    put_answer(answer, Quota::unpack(word))
}

// Packs a quota into one word.
#[unsafe(no_mangle)]
pub extern "C" fn nultiway_quota_pack(interval: u64, burst: u32, answer: &mut [u64]) -> u8
    ensures { Calls.QuotaPack (record { interval = interval; burst = burst }) answer.old result
        answer.new }
{
    if answer.len() < 1 {
        return 1;
    }
    let quota = Quota { interval, burst };
    put_answer(answer, quota.pack())
}

// Tells the requests a second of a quota: the bits of a double.
#[unsafe(no_mangle)]
pub extern "C" fn nultiway_quota_rate_per_sec(interval: u64, burst: u32, answer: &mut [u64]) -> u8
    ensures { Calls.QuotaRatePerSec (record { interval = interval; burst = burst })
        answer.old result answer.new }
{
    if answer.len() < 1 {
        return 1;
    }
    let quota = Quota { interval, burst };
    put_answer(answer, quota.rate_per_sec())
}

// Tells the quoted ceiling: the most checks that a quota allows at readings from s to s + `window`.
#[unsafe(no_mangle)]
pub extern "C" fn nultiway_quota_ceiling(
    interval: u64,
    burst: u32,
    window: u64,
    answer: &mut [u64],
) -> u8
    ensures { Calls.QuotaCeiling (record { interval = interval; burst = burst }) window
        answer.old result answer.new }
{
    if answer.len() < 1 {
        return 1;
    }
    let quota = Quota { interval, burst };
    put_answer(answer, quota.ceiling(window))
}

// Makes one attempt on a TAT, 0 for none, and a packed quota: a decision, and the TAT after it.
#[unsafe(no_mangle)]
pub extern "C" fn nultiway_step(tat: u64, packed: u64, reading: u64, answer: &mut [u64]) -> u8
    ensures { Calls.Step tat packed reading answer.old result answer.new }
{
    if answer.len() < STEP_WORDS {
        return 1;
    }
    let stepped = gcra::step(tat, packed, reading);
    let decision = stepped.decision;
    let d = decision_words(decision);
    let w = [d[0], d[1], stepped.tat];
    put(answer, &w);
    0
}
