// What a limiter tells.
ghost use Rattle.limiter.specs.State.{tables};
ghost use Rattle.nultiway.specs.LimiterCalls as Calls;

use crate::answers::put_answer;
use crate::values::{ask_limiter, limiter_of};
use limiter::Limit;

// Tells a new key's quota under a limit: interval and burst.
#[unsafe(no_mangle)]
pub extern "C" fn nultiway_new_key_quota(
    limiter: &[u64],
    keys: &[u64],
    hot: &[u64],
    shadows: &[u64],
    rate: f64,
    burst: u32,
    cluster_size: u64,
    answer: &mut [u64],
) -> u8
    ensures { Calls.NewKeyQuota limiter.now (tables keys.now hot.now shadows.now)
        (Calls.limit rate burst) cluster_size answer.old result answer.new }
{
    let room = 2 <= answer.len();
    let no = ask_limiter(limiter, keys.len(), hot.len(), shadows.len(), room);
    if no != 0 {
        return no;
    }
    let limit = Limit { rate, burst };
    let nodes = cluster_size as usize;
    let limiter = limiter_of(limiter);
    put_answer(
        answer,
        limiter.new_key_quota(keys, hot, shadows, limit, nodes),
    )
}

// Tells a new key's part of its limit: the bits of a double.
#[unsafe(no_mangle)]
pub extern "C" fn nultiway_new_key_factor(
    limiter: &[u64],
    keys: &[u64],
    hot: &[u64],
    shadows: &[u64],
    cluster_size: u64,
    answer: &mut [u64],
) -> u8
    ensures { Calls.NewKeyFactor limiter.now (tables keys.now hot.now shadows.now) cluster_size
        answer.old result answer.new }
{
    let room = 1 <= answer.len();
    let no = ask_limiter(limiter, keys.len(), hot.len(), shadows.len(), room);
    if no != 0 {
        return no;
    }
    let nodes = cluster_size as usize;
    let limiter = limiter_of(limiter);
    put_answer(answer, limiter.new_key_factor(keys, hot, shadows, nodes))
}

// Tells whether a key is tracked, and the bits of three rates a second: requests, denials, and
// shadow denials.
#[unsafe(no_mangle)]
pub extern "C" fn nultiway_key_rates(
    limiter: &[u64],
    keys: &[u64],
    hot: &[u64],
    shadows: &[u64],
    key: u64,
    answer: &mut [u64],
) -> u8
    ensures { Calls.LimiterKeyRates limiter.now (tables keys.now hot.now shadows.now) key
        answer.old result answer.new }
{
    let room = 4 <= answer.len();
    let no = ask_limiter(limiter, keys.len(), hot.len(), shadows.len(), room);
    if no != 0 {
        return no;
    }
    let limiter = limiter_of(limiter);
    put_answer(answer, limiter.key_rates(keys, hot, shadows, key))
}

// Tells whether a key is tracked, and the interval and burst of its quota.
#[unsafe(no_mangle)]
pub extern "C" fn nultiway_quota(
    limiter: &[u64],
    keys: &[u64],
    hot: &[u64],
    shadows: &[u64],
    key: u64,
    answer: &mut [u64],
) -> u8
    ensures { Calls.LimiterQuota limiter.now (tables keys.now hot.now shadows.now) key
        answer.old result answer.new }
{
    let room = 3 <= answer.len();
    let no = ask_limiter(limiter, keys.len(), hot.len(), shadows.len(), room);
    if no != 0 {
        return no;
    }
    let limiter = limiter_of(limiter);
    put_answer(answer, limiter.quota(keys, hot, shadows, key))
}

// Tells whether a key is tracked, and its limit: the rate's bits and the burst.
#[unsafe(no_mangle)]
pub extern "C" fn nultiway_limit(
    limiter: &[u64],
    keys: &[u64],
    hot: &[u64],
    shadows: &[u64],
    key: u64,
    answer: &mut [u64],
) -> u8
    ensures { Calls.LimiterLimit limiter.now (tables keys.now hot.now shadows.now) key
        answer.old result answer.new }
{
    let room = 3 <= answer.len();
    let no = ask_limiter(limiter, keys.len(), hot.len(), shadows.len(), room);
    if no != 0 {
        return no;
    }
    let limiter = limiter_of(limiter);
    put_answer(answer, limiter.limit(keys, hot, shadows, key))
}

// Tells the settings: the first nine words of the limiter.
#[unsafe(no_mangle)]
pub extern "C" fn nultiway_config(
    limiter: &[u64],
    keys: &[u64],
    hot: &[u64],
    shadows: &[u64],
    answer: &mut [u64],
) -> u8
    ensures { Calls.LimiterConfig limiter.now (tables keys.now hot.now shadows.now)
        answer.old result answer.new }
{
    let room = 9 <= answer.len();
    let no = ask_limiter(limiter, keys.len(), hot.len(), shadows.len(), room);
    if no != 0 {
        return no;
    }
    let limiter = limiter_of(limiter);
    put_answer(answer, limiter.config(keys, hot, shadows))
}

// Tells whether a key is hot, and when it came into the hot set.
#[unsafe(no_mangle)]
pub extern "C" fn nultiway_hot_since(
    limiter: &[u64],
    keys: &[u64],
    hot: &[u64],
    shadows: &[u64],
    key: u64,
    answer: &mut [u64],
) -> u8
    ensures { Calls.HotSince limiter.now (tables keys.now hot.now shadows.now) key
        answer.old result answer.new }
{
    let room = 2 <= answer.len();
    let no = ask_limiter(limiter, keys.len(), hot.len(), shadows.len(), room);
    if no != 0 {
        return no;
    }
    let limiter = limiter_of(limiter);
    put_answer(answer, limiter.hot_since(keys, hot, shadows, key))
}

// Tells whether a key is hot.
#[unsafe(no_mangle)]
pub extern "C" fn nultiway_is_hot(
    limiter: &[u64],
    keys: &[u64],
    hot: &[u64],
    shadows: &[u64],
    key: u64,
    answer: &mut [u64],
) -> u8
    ensures { Calls.IsHot limiter.now (tables keys.now hot.now shadows.now) key
        answer.old result answer.new }
{
    let room = 1 <= answer.len();
    let no = ask_limiter(limiter, keys.len(), hot.len(), shadows.len(), room);
    if no != 0 {
        return no;
    }
    let limiter = limiter_of(limiter);
    put_answer(answer, limiter.is_hot(keys, hot, shadows, key))
}

// Tells whether a key is tracked.
#[unsafe(no_mangle)]
pub extern "C" fn nultiway_tracked(
    limiter: &[u64],
    keys: &[u64],
    hot: &[u64],
    shadows: &[u64],
    key: u64,
    answer: &mut [u64],
) -> u8
    ensures { Calls.Tracked limiter.now (tables keys.now hot.now shadows.now) key
        answer.old result answer.new }
{
    let room = 1 <= answer.len();
    let no = ask_limiter(limiter, keys.len(), hot.len(), shadows.len(), room);
    if no != 0 {
        return no;
    }
    let limiter = limiter_of(limiter);
    put_answer(answer, limiter.tracked(keys, hot, shadows, key))
}

// Tells how many keys are hot.
#[unsafe(no_mangle)]
pub extern "C" fn nultiway_hot_keys(
    limiter: &[u64],
    keys: &[u64],
    hot: &[u64],
    shadows: &[u64],
    answer: &mut [u64],
) -> u8
    ensures { Calls.HotKeys limiter.now (tables keys.now hot.now shadows.now)
        answer.old result answer.new }
{
    let room = 1 <= answer.len();
    let no = ask_limiter(limiter, keys.len(), hot.len(), shadows.len(), room);
    if no != 0 {
        return no;
    }
    let limiter = limiter_of(limiter);
    put_answer(answer, limiter.hot_keys(keys, hot, shadows))
}

// Tells how many keys are tracked.
#[unsafe(no_mangle)]
pub extern "C" fn nultiway_tracked_keys(
    limiter: &[u64],
    keys: &[u64],
    hot: &[u64],
    shadows: &[u64],
    answer: &mut [u64],
) -> u8
    ensures { Calls.TrackedKeys limiter.now (tables keys.now hot.now shadows.now)
        answer.old result answer.new }
{
    let room = 1 <= answer.len();
    let no = ask_limiter(limiter, keys.len(), hot.len(), shadows.len(), room);
    if no != 0 {
        return no;
    }
    let limiter = limiter_of(limiter);
    put_answer(answer, limiter.tracked_keys(keys, hot, shadows))
}
