// Checks of keys.
ghost use Rattle.std.specs.Prelude.{◌≡◌};
ghost use Rattle.limiter.specs.State.{tables};
ghost use Rattle.nultiway.specs.LimiterCalls as Calls;

use crate::answers::{change_number, put_answer};
use crate::values::{ask_limiter, limiter_of, put_limiter};
use limiter::Limit;

// Decides on a request for a key under the settings' limit: a new key's quota is made of it, a
// tracked key keeps its quota until the next tick, which goes by the limit given last, here this one.
#[unsafe(no_mangle)]
pub extern "C" fn nultiway_check(
    limiter: &mut [u64],
    keys: &mut [u64],
    hot: &[u64],
    shadows: &[u64],
    key: u64,
    reading: u64,
    cluster_size: u64,
    answer: &mut [u64],
) -> u8
    ensures { Calls.Check limiter.old (tables keys.old hot.now shadows.now) key reading cluster_size
        answer.old result
        limiter.new (tables keys.new hot.now shadows.now) answer.new }
{
    let room = 2 <= answer.len();
    let no = ask_limiter(limiter, keys.len(), hot.len(), shadows.len(), room);
    if no != 0 {
        return no;
    }
    let before = limiter_of(limiter);
    let checked = before.check(keys, hot, shadows, key, reading, cluster_size as usize);
    let next = checked.limiter;
    let said = checked.answer;
    put_limiter(limiter, next);
    put_answer(answer, said)
}

// Decides on a request for a key under the limit given: a new key's quota is made of it, a tracked
// key keeps its quota until the next tick, which goes by the limit given last.
#[unsafe(no_mangle)]
pub extern "C" fn nultiway_check_in(
    limiter: &mut [u64],
    keys: &mut [u64],
    hot: &[u64],
    shadows: &[u64],
    key: u64,
    rate: f64,
    burst: u32,
    reading: u64,
    cluster_size: u64,
    answer: &mut [u64],
) -> u8
    ensures { Calls.CheckIn limiter.old (tables keys.old hot.now shadows.now) key
        (Calls.limit rate burst) reading cluster_size answer.old result
        limiter.new (tables keys.new hot.now shadows.now) answer.new }
{
    let room = 2 <= answer.len();
    let no = ask_limiter(limiter, keys.len(), hot.len(), shadows.len(), room);
    if no != 0 {
        return no;
    }
    let before = limiter_of(limiter);
    let limit = Limit { rate, burst };
    let nodes = cluster_size as usize;
    let checked = before.check_in(keys, hot, shadows, key, limit, reading, nodes);
    let after = checked.limiter;
    let said = checked.answer;
    put_limiter(limiter, after);
    put_answer(answer, said)
}

// The shadow limit, or none where `has_shadow` is 0.
fn shadow_given(has_shadow: u8, rate: f64, burst: u32) -> Option<Limit>
    ensures { result ≡ Calls.shadow_given has_shadow (Calls.limit rate burst) }
{
    if has_shadow == 0 {
        return None;
    }
    Some(Limit { rate, burst })
}

// Does the same beside a shadow limit, and tells a decision, whether there is a shadow, and its
// decision: the shadow's quota has the rate of the key's, at the ratio of the two limits' rates, and
// the shadow limit's burst, and where `has_shadow` is 0 the key's shadow is removed.
#[unsafe(no_mangle)]
pub extern "C" fn nultiway_check_in_traced(
    limiter: &mut [u64],
    keys: &mut [u64],
    hot: &[u64],
    shadows: &mut [u64],
    key: u64,
    rate: f64,
    burst: u32,
    has_shadow: u8,
    shadow_rate: f64,
    shadow_burst: u32,
    reading: u64,
    cluster_size: u64,
    answer: &mut [u64],
) -> u8
    ensures { Calls.CheckInTraced limiter.old (tables keys.old hot.now shadows.old) key
        (Calls.limit rate burst)
        (Calls.shadow_given has_shadow (Calls.limit shadow_rate shadow_burst)) reading
        cluster_size answer.old result
        limiter.new (tables keys.new hot.now shadows.new) answer.new }
{
    let room = 5 <= answer.len();
    let no = ask_limiter(limiter, keys.len(), hot.len(), shadows.len(), room);
    if no != 0 {
        return no;
    }
    let before = limiter_of(limiter);
    let limit = Limit { rate, burst };
    let nodes = cluster_size as usize;
    let shadow = shadow_given(has_shadow, shadow_rate, shadow_burst);
    let checked = before.check_in_traced(keys, hot, shadows, key, limit, shadow, reading, nodes);
    let after = checked.limiter;
    let said = checked.answer;
    put_limiter(limiter, after);
    put_answer(answer, said)
}

// Checks `count` pairs of a key and a reading under the settings' limit, one after the other: three
// words for each, the number of the question that it fails or 0, whether it is denied, and the retry
// time.
#[unsafe(no_mangle)]
pub extern "C" fn nultiway_check_each(
    limiter: &mut [u64],
    keys: &mut [u64],
    hot: &[u64],
    shadows: &[u64],
    list: &[u64],
    count: u64,
    cluster_size: u64,
    out: &mut [u64],
) -> u8
    ensures { Calls.CheckEach limiter.old (tables keys.old hot.now shadows.now) list.now
        count cluster_size
        out.old result limiter.new (tables keys.new hot.now shadows.now) out.new }
{
    let many = count as usize;
    let room = records::fits(list.len(), 2, many);
    let no = ask_limiter(limiter, keys.len(), hot.len(), shadows.len(), room);
    if no != 0 {
        return no;
    }
    let before = limiter_of(limiter);
    let nodes = cluster_size as usize;
    let changed = before.check_each(keys, hot, shadows, list, many, nodes, out);
    let after = changed.limiter;
    let said = changed.answer;
    put_limiter(limiter, after);
    change_number(said)
}
