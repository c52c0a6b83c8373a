// Calls on an estimator of attempts a second that stands in lent words.
ghost use Rattle.std.specs.Prelude.{◌≡◌, ◌≤◌, length};
ghost use Rattle.records.specs.Words.{paste};
ghost use Rattle.questions.specs.Questions.{first_no};
ghost use Rattle.nultiway.specs.DemandCalls.{times_of, demand_words, demand_of, is_demand, demand_asked};
ghost use Rattle.nultiway.specs.DemandCalls as Calls;

use crate::answers::{Lent, put_answer};
use crate::values::put;
use demand::demand::{Demand, Times};
use records::fields::is_time;

// The words of an estimator: rate, attempts since the last tick, whether it has its times, the last
// tick, the start, and the time constant.
pub const DEMAND_WORDS: usize = 6;

// Whether the words are those of an estimator, whatever its rate is.
fn is_demand(words: &[u64]) -> bool
    requires { 6 ≤ length words.now }
    ensures { result ≡ is_demand words.now }
{
    is_time(words[2], words[3]) && is_time(words[2], words[4])
}

// Questions 1 and 2 of an estimator's words: are there as many, and as many in the buffer for the
// answer, and are they an estimator's? The first that is answered 'no', 0 where none is.
fn ask_demand(words: &[u64], room: bool) -> u8
    ensures { result ≡ first_no (demand_asked words.now room) }
{
    if words.len() < DEMAND_WORDS {
        return 1;
    }
    if !room {
        return 1;
    }
    if !is_demand(words) {
        return 2;
    }
    0
}

fn times_of(flag: u64, last_tick: u64, since: u64) -> Option<Times>
    ensures { result ≡ times_of flag last_tick since }
{
    if flag == 0 {
        return None;
    }
    Some(Times { last_tick, since })
}

// The estimator that the words stand for.
fn demand_of(words: &[u64]) -> Demand
    requires { 6 ≤ length words.now }
    ensures { result ≡ demand_of words.now }
{
    let times = times_of(words[2], words[3], words[4]);
    let current_rate = float::from_bits(words[0]);
    Demand {
        current_rate,
        attempts_since_tick: words[1],
        times,
        time_constant: words[5],
    }
}

fn demand_words(demand: Demand) -> [u64; DEMAND_WORDS]
    ensures { result ≡ demand_words demand }
{
    let rate = float::to_bits(demand.current_rate);
    let attempts = demand.attempts_since_tick;
    let times = demand.times;
    match times {
        None => [rate, attempts, 0, 0, 0, demand.time_constant],
        Some(Times { last_tick, since }) => {
            [rate, attempts, 1, last_tick, since, demand.time_constant]
        }
    }
}

// Writes an estimator's words.
fn put_demand(words: &mut [u64], demand: Demand)
    requires { 6 ≤ length words.old }
    ensures { words.new ≡ paste 0 (demand_words demand) words.old }
{
    put(words, &demand_words(demand));
}

// A changed estimator.
impl Lent<6> for Demand {
    ghost words = { demand_words };

    fn words(self) -> [u64; 6] {
        demand_words(self)
    }
}

// Makes an estimator at rate 0 that has no times yet.
#[unsafe(no_mangle)]
pub extern "C" fn nultiway_demand_new(demand: &mut [u64], time_constant: u64) -> u8
    ensures { Calls.DemandNew demand.old time_constant result demand.new }
{
    if demand.len() < DEMAND_WORDS {
        return 1;
    }
    put_demand(demand, Demand::new(time_constant));
    0
}

// Makes an estimator at rate 0 with both times at the reading, so that its first tick moves the
// rate.
#[unsafe(no_mangle)]
pub extern "C" fn nultiway_demand_starting_at(
    demand: &mut [u64],
    time_constant: u64,
    reading: u64,
) -> u8
    ensures { Calls.DemandStartingAt demand.old time_constant reading result
        demand.new }
{
    if demand.len() < DEMAND_WORDS {
        return 1;
    }
    put_demand(demand, Demand::starting_at(time_constant, reading));
    0
}

// Counts one attempt on an estimator.
#[unsafe(no_mangle)]
pub extern "C" fn nultiway_demand_record_attempt(demand: &mut [u64]) -> u8
    ensures { Calls.DemandRecordAttempt demand.old result demand.new }
{
    let no = ask_demand(demand, true);
    if no != 0 {
        return no;
    }
    let before = demand_of(demand);
    put_answer(demand, before.record_attempt())
}

// Counts attempts on an estimator.
#[unsafe(no_mangle)]
pub extern "C" fn nultiway_demand_record_attempts(demand: &mut [u64], attempts: u64) -> u8
    ensures { Calls.DemandRecordAttempts demand.old attempts result demand.new }
{
    let no = ask_demand(demand, true);
    if no != 0 {
        return no;
    }
    let before = demand_of(demand);
    put_answer(demand, before.record_attempts(attempts))
}

// Moves an estimator's rate by the attempts counted since its last tick, and counts from 0 again.
#[unsafe(no_mangle)]
pub extern "C" fn nultiway_demand_tick(demand: &mut [u64], reading: u64) -> u8
    ensures { Calls.DemandTick demand.old reading result demand.new }
{
    let no = ask_demand(demand, true);
    if no != 0 {
        return no;
    }
    let before = demand_of(demand);
    put_answer(demand, before.tick(reading))
}

// Tells whether an estimator has attempts that no tick has folded.
#[unsafe(no_mangle)]
pub extern "C" fn nultiway_demand_has_pending(demand: &[u64], answer: &mut [u64]) -> u8
    ensures { Calls.DemandHasPending demand.now answer.old result answer.new }
{
    let no = ask_demand(demand, 1 <= answer.len());
    if no != 0 {
        return no;
    }
    let read = demand_of(demand);
    put_answer(answer, read.has_pending())
}

// Tells the rate that an estimator's last tick left: the bits of a double.
#[unsafe(no_mangle)]
pub extern "C" fn nultiway_demand_rate(demand: &[u64], answer: &mut [u64]) -> u8
    ensures { Calls.DemandRate demand.now answer.old result answer.new }
{
    let no = ask_demand(demand, 1 <= answer.len());
    if no != 0 {
        return no;
    }
    let read = demand_of(demand);
    put_answer(answer, read.rate())
}

// Tells an estimator's rate with its start at 0 taken out: the bits of a double.
#[unsafe(no_mangle)]
pub extern "C" fn nultiway_demand_unbiased_rate(demand: &[u64], answer: &mut [u64]) -> u8
    ensures { Calls.DemandUnbiasedRate demand.now answer.old result
        answer.new }
{
    let no = ask_demand(demand, 1 <= answer.len());
    if no != 0 {
        return no;
    }
    let read = demand_of(demand);
    put_answer(answer, read.unbiased_rate())
}
