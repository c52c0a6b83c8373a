// Calls on a Gcra that stands in lent words.
ghost use Rattle.nultiway.specs.LoneCalls as Calls;

// Makes a meter that has allowed nothing yet.
#[unsafe(no_mangle)]
pub extern "C" fn nultiway_gcra_new(gcra: &mut [u64], interval: u64, burst: u32) -> u8
    ensures { Calls.GcraNew gcra.old (record { interval = interval; burst = burst }) result
        gcra.new }
{
    nultiway::gcra_calls::nultiway_gcra_new(gcra, interval, burst)
}

// Decides on a request by a meter.
#[unsafe(no_mangle)]
pub extern "C" fn nultiway_gcra_check(gcra: &mut [u64], reading: u64, answer: &mut [u64]) -> u8
    ensures { Calls.GcraCheck gcra.old reading answer.old result gcra.new
        answer.new }
{
    nultiway::gcra_calls::nultiway_gcra_check(gcra, reading, answer)
}

// Changes a meter's quota: a debt of so many slots of the old one is as many of the new one.
#[unsafe(no_mangle)]
pub extern "C" fn nultiway_gcra_set_quota(
    gcra: &mut [u64],
    interval: u64,
    burst: u32,
    reading: u64,
) -> u8
    ensures { Calls.GcraSetQuota gcra.old (record { interval = interval; burst = burst })
        reading result gcra.new }
{
    nultiway::gcra_calls::nultiway_gcra_set_quota(gcra, interval, burst, reading)
}

// Tells whether a meter's TAT is later than the reading.
#[unsafe(no_mangle)]
pub extern "C" fn nultiway_gcra_has_debt(gcra: &[u64], reading: u64, answer: &mut [u64]) -> u8
    ensures { Calls.GcraHasDebt gcra.now reading answer.old result answer.new }
{
    nultiway::gcra_calls::nultiway_gcra_has_debt(gcra, reading, answer)
}

// Tells whether a meter would deny a check, and the nanoseconds to wait then.
#[unsafe(no_mangle)]
pub extern "C" fn nultiway_gcra_retry_after(gcra: &[u64], reading: u64, answer: &mut [u64]) -> u8
    ensures { Calls.GcraRetryAfter gcra.now reading answer.old result
        answer.new }
{
    nultiway::gcra_calls::nultiway_gcra_retry_after(gcra, reading, answer)
}
