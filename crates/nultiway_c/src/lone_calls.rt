// Calls on a quota or on `step` alone.
ghost use Rattle.nultiway.specs.LoneCalls as Calls;

// Makes the quota of a whole number of requests a second: interval and burst.
#[unsafe(no_mangle)]
pub extern "C" fn nultiway_quota_new(rate: u32, burst: u32, answer: &mut [u64]) -> u8
    ensures { Calls.QuotaNew rate burst answer.old result answer.new }
{
    nultiway::lone_calls::nultiway_quota_new(rate, burst, answer)
}

// Makes the quota of any rate, the longest interval where it is too slow or no rate: interval and
// burst.
#[unsafe(no_mangle)]
pub extern "C" fn nultiway_quota_per_second(rate: f64, burst: u32, answer: &mut [u64]) -> u8
    ensures { Calls.QuotaPerSecond rate burst answer.old result answer.new }
{
    nultiway::lone_calls::nultiway_quota_per_second(rate, burst, answer)
}

// Reads the quota that a packed word holds: interval and burst.
#[unsafe(no_mangle)]
pub extern "C" fn nultiway_quota_unpack(word: u64, answer: &mut [u64]) -> u8
    ensures { Calls.QuotaUnpack word answer.old result answer.new }
{
    nultiway::lone_calls::nultiway_quota_unpack(word, answer)
}

// Packs a quota into one word.
#[unsafe(no_mangle)]
pub extern "C" fn nultiway_quota_pack(interval: u64, burst: u32, answer: &mut [u64]) -> u8
    ensures { Calls.QuotaPack (record { interval = interval; burst = burst }) answer.old result
        answer.new }
{
    nultiway::lone_calls::nultiway_quota_pack(interval, burst, answer)
}

// Tells the requests a second of a quota: the bits of a double.
#[unsafe(no_mangle)]
pub extern "C" fn nultiway_quota_rate_per_sec(interval: u64, burst: u32, answer: &mut [u64]) -> u8
    ensures { Calls.QuotaRatePerSec (record { interval = interval; burst = burst })
        answer.old result answer.new }
{
    nultiway::lone_calls::nultiway_quota_rate_per_sec(interval, burst, answer)
}

// Tells the quoted ceiling: the most checks that a quota allows at readings from s to s + `window`.
#[unsafe(no_mangle)]
pub extern "C" fn nultiway_quota_ceiling(
    interval: u64,
    burst: u32,
    window: u64,
    answer: &mut [u64],
) -> u8
    ensures { Calls.QuotaCeiling (record { interval = interval; burst = burst }) window
        answer.old result answer.new }
{
    nultiway::lone_calls::nultiway_quota_ceiling(interval, burst, window, answer)
}

// Makes one attempt on a TAT, 0 for none, and a packed quota: a decision, and the TAT after it.
#[unsafe(no_mangle)]
pub extern "C" fn nultiway_step(tat: u64, packed: u64, reading: u64, answer: &mut [u64]) -> u8
    ensures { Calls.Step tat packed reading answer.old result answer.new }
{
    nultiway::lone_calls::nultiway_step(tat, packed, reading, answer)
}
