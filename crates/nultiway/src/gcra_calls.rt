// Calls on a Gcra that stands in lent words.
ghost use Rattle.std.specs.Prelude.{◌≡◌, true, ◌≤◌, length};
ghost use Rattle.records.specs.Words.{paste};
ghost use Rattle.questions.specs.Questions.{first_no};
ghost use Rattle.records.specs.Fields.{time_of};
ghost use Rattle.nultiway.specs.LoneCalls.{gcra_words, gcra_of, is_gcra, gcra_asked};
ghost use Rattle.nultiway.specs.LoneCalls as Calls;

use crate::answers::{Lent, change_number, put_answer};
use crate::values::put;
use gcra::{Gcra, Quota};
use records::fields::{is_time, time_of, time_words};

// The words of a Gcra: interval, burst, whether there is a TAT, and the TAT.
pub const GCRA_WORDS: usize = 4;

// Bursts are below it.
const BURSTS: u64 = 1 << 32;

// Whether the words are those of a Gcra.
fn is_gcra(words: &[u64]) -> bool
    requires { 4 ≤ length words.now }
    ensures { result ≡ is_gcra words.now }
{
    words[1] < BURSTS && is_time(words[2], words[3])
}

// Questions 1 and 2 of a Gcra's words: are there as many, and as many in the buffer for the answer,
// and are they a Gcra's? The first that is answered 'no', 0 where none is.
fn ask_gcra(words: &[u64], room: bool) -> u8
    ensures { result ≡ first_no (gcra_asked words.now room) }
{
    if words.len() < GCRA_WORDS {
        return 1;
    }
    if !room {
        return 1;
    }
    if !is_gcra(words) {
        return 2;
    }
    0
}

// The Gcra that the words stand for.
fn gcra_of(words: &[u64]) -> Gcra
    requires { (4 ≤ length words.now) × (is_gcra words.now ≡ true) }
    ensures { result ≡ gcra_of words.now }
{
    let quota = Quota {
        interval: words[0],
        burst: words[1] as u32,
    };
    let tat = time_of(words[2], words[3]);
    Gcra { quota, tat }
}

fn gcra_words(gcra: Gcra) -> [u64; 4]
    ensures { result ≡ gcra_words gcra }
{
    let quota = gcra.quota;
    let tat = time_words(gcra.tat);
    [quota.interval, quota.burst as u64, tat[0], tat[1]]
}

// Writes a Gcra's words.
fn put_gcra(words: &mut [u64], gcra: Gcra)
    requires { 4 ≤ length words.old }
    ensures { words.new ≡ paste 0 (gcra_words gcra) words.old }
{
    put(words, &gcra_words(gcra));
}

// A new Gcra.
impl Lent<4> for Gcra {
    ghost words = { gcra_words };

    fn words(self) -> [u64; 4] {
        gcra_words(self)
    }
}

// Makes a meter that has allowed nothing yet.
#[unsafe(no_mangle)]
pub extern "C" fn nultiway_gcra_new(gcra: &mut [u64], interval: u64, burst: u32) -> u8
    ensures { Calls.GcraNew gcra.old (record { interval = interval; burst = burst }) result
        gcra.new }
{
    if gcra.len() < GCRA_WORDS {
        return 1;
    }
    let quota = Quota { interval, burst };
    put_answer(gcra, Gcra::new(quota))
}

// Decides on a request by a meter.
#[unsafe(no_mangle)]
pub extern "C" fn nultiway_gcra_check(gcra: &mut [u64], reading: u64, answer: &mut [u64]) -> u8
    ensures { Calls.GcraCheck gcra.old reading answer.old result gcra.new
        answer.new }
{
    let no = ask_gcra(gcra, 2 <= answer.len());
    if no != 0 {
        return no;
    }
    let meter = gcra_of(gcra);
    let checked = meter.check(reading);
    let said = checked.answer;
    let left = checked.gcra;
    put_gcra(gcra, left);
    put_answer(answer, said)
}

// Changes a meter's quota: a debt of so many slots of the old one is as many of the new one.
#[unsafe(no_mangle)]
pub extern "C" fn nultiway_gcra_set_quota(
    gcra: &mut [u64],
    interval: u64,
    burst: u32,
    reading: u64,
) -> u8
    ensures { Calls.GcraSetQuota gcra.old (record { interval = interval; burst = burst })
        reading result gcra.new }
{
    let no = ask_gcra(gcra, true);
    if no != 0 {
        return no;
    }
    let meter = gcra_of(gcra);
    let quota = Quota { interval, burst };
    let set = meter.set_quota(quota, reading);
    let said = set.answer;
    let left = set.gcra;
    put_gcra(gcra, left);
    change_number(said)
}

// Tells whether a meter's TAT is later than the reading.
#[unsafe(no_mangle)]
pub extern "C" fn nultiway_gcra_has_debt(gcra: &[u64], reading: u64, answer: &mut [u64]) -> u8
    ensures { Calls.GcraHasDebt gcra.now reading answer.old result answer.new }
{
    let no = ask_gcra(gcra, 1 <= answer.len());
    if no != 0 {
        return no;
    }
    let meter = gcra_of(gcra);
    put_answer(answer, meter.has_debt(reading))
}

// Tells whether a meter would deny a check, and the nanoseconds to wait then.
#[unsafe(no_mangle)]
pub extern "C" fn nultiway_gcra_retry_after(gcra: &[u64], reading: u64, answer: &mut [u64]) -> u8
    ensures { Calls.GcraRetryAfter gcra.now reading answer.old result
        answer.new }
{
    let no = ask_gcra(gcra, 2 <= answer.len());
    if no != 0 {
        return no;
    }
    let meter = gcra_of(gcra);
    put_answer(answer, meter.retry_after(reading))
}
