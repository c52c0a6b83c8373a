// Calls on a hot set that stands in lent words, and its entries in others.
ghost use Rattle.records.specs.Fields.{flag_of};
ghost use Rattle.nultiway.specs.HotCalls as Calls;

use crate::answers::put_answer;
use crate::hot_answers::{HOT_SET_WORDS, hot_set_left, hot_set_of, put_hot_set};
use crate::values::are_long;
use hot::hot_set::HotSet;

// Makes a hot set that may grow to `max_size` entries and has none yet.
#[unsafe(no_mangle)]
pub extern "C" fn nultiway_hot_set_new(
    hot_set: &mut [u64],
    entries: &[u64],
    cooldown: u64,
    max_size: u64,
) -> u8
    ensures { Calls.New hot_set.old entries.now cooldown max_size result
        hot_set.new }
{
    if hot_set.len() < HOT_SET_WORDS {
        return 1;
    }
    put_answer(hot_set, HotSet::new(entries, cooldown, max_size as usize))
}

// Takes in a key's demand, and tells whether the key is hot then.
#[unsafe(no_mangle)]
pub extern "C" fn nultiway_hot_set_update(
    hot_set: &mut [u64],
    entries: &mut [u64],
    key: u64,
    demand_rate: f64,
    threshold: f64,
    reading: u64,
    answer: &mut [u64],
) -> u8
    ensures { Calls.Update hot_set.old entries.old key demand_rate threshold
        reading answer.old result hot_set.new entries.new
        answer.new }
{
    if !are_long(hot_set.len(), HOT_SET_WORDS, answer.len(), 1) {
        return 1;
    }
    let set = hot_set_of(hot_set);
    let said = set.update(entries, key, demand_rate, threshold, reading);
    put_hot_set(hot_set, hot_set_left(set, said));
    put_answer(answer, said)
}

// Takes in a key's demand where a peer may have the key as primary, and tells whether the key is
// hot then. A `hot_elsewhere` of 0 is no, any other number yes.
#[unsafe(no_mangle)]
pub extern "C" fn nultiway_hot_set_update_with(
    hot_set: &mut [u64],
    entries: &mut [u64],
    key: u64,
    demand_rate: f64,
    threshold: f64,
    reading: u64,
    hot_elsewhere: u8,
    answer: &mut [u64],
) -> u8
    ensures { Calls.UpdateWith hot_set.old entries.old key demand_rate threshold
        reading (flag_of hot_elsewhere) answer.old result hot_set.new
        entries.new answer.new }
{
    if !are_long(hot_set.len(), HOT_SET_WORDS, answer.len(), 1) {
        return 1;
    }
    let set = hot_set_of(hot_set);
    let elsewhere = hot_elsewhere != 0;
    let said = set.update_with(entries, key, demand_rate, threshold, reading, elsewhere);
    put_hot_set(hot_set, hot_set_left(set, said));
    put_answer(answer, said)
}

// Takes in the demand of each of `count` keys, the first words of records of `width` words, one
// after the other, and tells of each whether it is hot after its own update. Each has a demand, a
// threshold, and whether a peer has it as primary.
#[unsafe(no_mangle)]
pub extern "C" fn nultiway_hot_set_update_each(
    hot_set: &mut [u64],
    entries: &mut [u64],
    keys: &[u64],
    width: u64,
    count: u64,
    demands: &[f64],
    thresholds: &[f64],
    elsewhere: &[bool],
    reading: u64,
    out: &mut [bool],
) -> u8
    ensures { Calls.UpdateEach hot_set.old entries.old keys.now width
        count demands.now thresholds.now elsewhere.now reading
        out.old result hot_set.new entries.new out.new }
{
    if hot_set.len() < HOT_SET_WORDS {
        return 1;
    }
    let set = hot_set_of(hot_set);
    let w = width as usize;
    let n = count as usize;
    let said = set.update_each(
        entries, keys, w, n, demands, thresholds, elsewhere, reading, out,
    );
    put_answer(hot_set, said)
}

// Tells whether the set has a key.
#[unsafe(no_mangle)]
pub extern "C" fn nultiway_hot_set_is_hot(
    hot_set: &[u64],
    entries: &[u64],
    key: u64,
    answer: &mut [u64],
) -> u8
    ensures { Calls.IsHot hot_set.now entries.now key answer.old result
        answer.new }
{
    if !are_long(hot_set.len(), HOT_SET_WORDS, answer.len(), 1) {
        return 1;
    }
    let set = hot_set_of(hot_set);
    put_answer(answer, set.is_hot(entries, key))
}

// Tells whether the set has a key as primary.
#[unsafe(no_mangle)]
pub extern "C" fn nultiway_hot_set_is_primary(
    hot_set: &[u64],
    entries: &[u64],
    key: u64,
    answer: &mut [u64],
) -> u8
    ensures { Calls.IsPrimary hot_set.now entries.now key answer.old result
        answer.new }
{
    if !are_long(hot_set.len(), HOT_SET_WORDS, answer.len(), 1) {
        return 1;
    }
    let set = hot_set_of(hot_set);
    put_answer(answer, set.is_primary(entries, key))
}

// Tells whether the set has a key, and when the key came in.
#[unsafe(no_mangle)]
pub extern "C" fn nultiway_hot_set_hot_since(
    hot_set: &[u64],
    entries: &[u64],
    key: u64,
    answer: &mut [u64],
) -> u8
    ensures { Calls.HotSince hot_set.now entries.now key answer.old result
        answer.new }
{
    if !are_long(hot_set.len(), HOT_SET_WORDS, answer.len(), 2) {
        return 1;
    }
    let set = hot_set_of(hot_set);
    put_answer(answer, set.hot_since(entries, key))
}

// Tells the number of the set's entries.
#[unsafe(no_mangle)]
pub extern "C" fn nultiway_hot_set_len(hot_set: &[u64], entries: &[u64], answer: &mut [u64]) -> u8
    ensures { Calls.Len hot_set.now entries.now answer.old result
        answer.new }
{
    if !are_long(hot_set.len(), HOT_SET_WORDS, answer.len(), 1) {
        return 1;
    }
    let set = hot_set_of(hot_set);
    put_answer(answer, set.len(entries))
}

// Tells whether the set has no entry.
#[unsafe(no_mangle)]
pub extern "C" fn nultiway_hot_set_is_empty(
    hot_set: &[u64],
    entries: &[u64],
    answer: &mut [u64],
) -> u8
    ensures { Calls.IsEmpty hot_set.now entries.now answer.old result
        answer.new }
{
    if !are_long(hot_set.len(), HOT_SET_WORDS, answer.len(), 1) {
        return 1;
    }
    let set = hot_set_of(hot_set);
    put_answer(answer, set.is_empty(entries))
}
