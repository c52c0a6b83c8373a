// Calls on an estimator of attempts a second that stands in lent words.
ghost use Rattle.nultiway.specs.DemandCalls as Calls;

// Makes an estimator at rate 0 that has no times yet.
#[unsafe(no_mangle)]
pub extern "C" fn nultiway_demand_new(demand: &mut [u64], time_constant: u64) -> u8
    ensures { Calls.DemandNew demand.old time_constant result demand.new }
{
    nultiway::demand_calls::nultiway_demand_new(demand, time_constant)
}

// Makes an estimator at rate 0 with both times at the reading, so that its first tick moves the
// rate.
#[unsafe(no_mangle)]
pub extern "C" fn nultiway_demand_starting_at(
    demand: &mut [u64],
    time_constant: u64,
    reading: u64,
) -> u8
    ensures { Calls.DemandStartingAt demand.old time_constant reading result
        demand.new }
{
    nultiway::demand_calls::nultiway_demand_starting_at(demand, time_constant, reading)
}

// Counts one attempt on an estimator.
#[unsafe(no_mangle)]
pub extern "C" fn nultiway_demand_record_attempt(demand: &mut [u64]) -> u8
    ensures { Calls.DemandRecordAttempt demand.old result demand.new }
{
    nultiway::demand_calls::nultiway_demand_record_attempt(demand)
}

// Counts attempts on an estimator.
#[unsafe(no_mangle)]
pub extern "C" fn nultiway_demand_record_attempts(demand: &mut [u64], attempts: u64) -> u8
    ensures { Calls.DemandRecordAttempts demand.old attempts result demand.new }
{
    nultiway::demand_calls::nultiway_demand_record_attempts(demand, attempts)
}

// Moves an estimator's rate by the attempts counted since its last tick, and counts from 0 again.
#[unsafe(no_mangle)]
pub extern "C" fn nultiway_demand_tick(demand: &mut [u64], reading: u64) -> u8
    ensures { Calls.DemandTick demand.old reading result demand.new }
{
    nultiway::demand_calls::nultiway_demand_tick(demand, reading)
}

// Tells whether an estimator has attempts that no tick has folded.
#[unsafe(no_mangle)]
pub extern "C" fn nultiway_demand_has_pending(demand: &[u64], answer: &mut [u64]) -> u8
    ensures { Calls.DemandHasPending demand.now answer.old result answer.new }
{
    nultiway::demand_calls::nultiway_demand_has_pending(demand, answer)
}

// Tells the rate that an estimator's last tick left: the bits of a double.
#[unsafe(no_mangle)]
pub extern "C" fn nultiway_demand_rate(demand: &[u64], answer: &mut [u64]) -> u8
    ensures { Calls.DemandRate demand.now answer.old result answer.new }
{
    nultiway::demand_calls::nultiway_demand_rate(demand, answer)
}

// Tells an estimator's rate with its start at 0 taken out: the bits of a double.
#[unsafe(no_mangle)]
pub extern "C" fn nultiway_demand_unbiased_rate(demand: &[u64], answer: &mut [u64]) -> u8
    ensures { Calls.DemandUnbiasedRate demand.now answer.old result
        answer.new }
{
    nultiway::demand_calls::nultiway_demand_unbiased_rate(demand, answer)
}
