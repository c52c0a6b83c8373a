// What a limiter tells.
ghost use Rattle.limiter.specs.State.{tables};
ghost use Rattle.nultiway.specs.LimiterCalls as Calls;

// Tells a new key's quota under a limit: interval and burst.
#[unsafe(no_mangle)]
pub extern "C" fn nultiway_new_key_quota(
    limiter: &[u64],
    keys: &[u64],
    hot: &[u64],
    shadows: &[u64],
    rate: f64,
    burst: u32,
    cluster_size: u64,
    answer: &mut [u64],
) -> u8
    ensures { Calls.NewKeyQuota limiter.now (tables keys.now hot.now shadows.now)
        (Calls.limit rate burst) cluster_size answer.old result answer.new }
{
    nultiway::limiter_readers::nultiway_new_key_quota(
        limiter,
        keys,
        hot,
        shadows,
        rate,
        burst,
        cluster_size,
        answer,
    )
}

// Tells a new key's part of its limit: the bits of a double.
#[unsafe(no_mangle)]
pub extern "C" fn nultiway_new_key_factor(
    limiter: &[u64],
    keys: &[u64],
    hot: &[u64],
    shadows: &[u64],
    cluster_size: u64,
    answer: &mut [u64],
) -> u8
    ensures { Calls.NewKeyFactor limiter.now (tables keys.now hot.now shadows.now) cluster_size
        answer.old result answer.new }
{
    nultiway::limiter_readers::nultiway_new_key_factor(
        limiter,
        keys,
        hot,
        shadows,
        cluster_size,
        answer,
    )
}

// Tells whether a key is tracked, and the bits of three rates a second: requests, denials, and
// shadow denials.
#[unsafe(no_mangle)]
pub extern "C" fn nultiway_key_rates(
    limiter: &[u64],
    keys: &[u64],
    hot: &[u64],
    shadows: &[u64],
    key: u64,
    answer: &mut [u64],
) -> u8
    ensures { Calls.LimiterKeyRates limiter.now (tables keys.now hot.now shadows.now) key
        answer.old result answer.new }
{
    nultiway::limiter_readers::nultiway_key_rates(limiter, keys, hot, shadows, key, answer)
}

// Tells whether a key is tracked, and the interval and burst of its quota.
#[unsafe(no_mangle)]
pub extern "C" fn nultiway_quota(
    limiter: &[u64],
    keys: &[u64],
    hot: &[u64],
    shadows: &[u64],
    key: u64,
    answer: &mut [u64],
) -> u8
    ensures { Calls.LimiterQuota limiter.now (tables keys.now hot.now shadows.now) key
        answer.old result answer.new }
{
    nultiway::limiter_readers::nultiway_quota(limiter, keys, hot, shadows, key, answer)
}

// Tells whether a key is tracked, and its limit: the rate's bits and the burst.
#[unsafe(no_mangle)]
pub extern "C" fn nultiway_limit(
    limiter: &[u64],
    keys: &[u64],
    hot: &[u64],
    shadows: &[u64],
    key: u64,
    answer: &mut [u64],
) -> u8
    ensures { Calls.LimiterLimit limiter.now (tables keys.now hot.now shadows.now) key
        answer.old result answer.new }
{
    nultiway::limiter_readers::nultiway_limit(limiter, keys, hot, shadows, key, answer)
}

// Tells the settings: the first nine words of the limiter.
#[unsafe(no_mangle)]
pub extern "C" fn nultiway_config(
    limiter: &[u64],
    keys: &[u64],
    hot: &[u64],
    shadows: &[u64],
    answer: &mut [u64],
) -> u8
    ensures { Calls.LimiterConfig limiter.now (tables keys.now hot.now shadows.now)
        answer.old result answer.new }
{
    nultiway::limiter_readers::nultiway_config(limiter, keys, hot, shadows, answer)
}

// Tells whether a key is hot, and when it came into the hot set.
#[unsafe(no_mangle)]
pub extern "C" fn nultiway_hot_since(
    limiter: &[u64],
    keys: &[u64],
    hot: &[u64],
    shadows: &[u64],
    key: u64,
    answer: &mut [u64],
) -> u8
    ensures { Calls.HotSince limiter.now (tables keys.now hot.now shadows.now) key
        answer.old result answer.new }
{
    nultiway::limiter_readers::nultiway_hot_since(limiter, keys, hot, shadows, key, answer)
}

// Tells whether a key is hot.
#[unsafe(no_mangle)]
pub extern "C" fn nultiway_is_hot(
    limiter: &[u64],
    keys: &[u64],
    hot: &[u64],
    shadows: &[u64],
    key: u64,
    answer: &mut [u64],
) -> u8
    ensures { Calls.IsHot limiter.now (tables keys.now hot.now shadows.now) key
        answer.old result answer.new }
{
    nultiway::limiter_readers::nultiway_is_hot(limiter, keys, hot, shadows, key, answer)
}

// Tells whether a key is tracked.
#[unsafe(no_mangle)]
pub extern "C" fn nultiway_tracked(
    limiter: &[u64],
    keys: &[u64],
    hot: &[u64],
    shadows: &[u64],
    key: u64,
    answer: &mut [u64],
) -> u8
    ensures { Calls.Tracked limiter.now (tables keys.now hot.now shadows.now) key
        answer.old result answer.new }
{
    nultiway::limiter_readers::nultiway_tracked(limiter, keys, hot, shadows, key, answer)
}

// Tells how many keys are hot.
#[unsafe(no_mangle)]
pub extern "C" fn nultiway_hot_keys(
    limiter: &[u64],
    keys: &[u64],
    hot: &[u64],
    shadows: &[u64],
    answer: &mut [u64],
) -> u8
    ensures { Calls.HotKeys limiter.now (tables keys.now hot.now shadows.now)
        answer.old result answer.new }
{
    nultiway::limiter_readers::nultiway_hot_keys(limiter, keys, hot, shadows, answer)
}

// Tells how many keys are tracked.
#[unsafe(no_mangle)]
pub extern "C" fn nultiway_tracked_keys(
    limiter: &[u64],
    keys: &[u64],
    hot: &[u64],
    shadows: &[u64],
    answer: &mut [u64],
) -> u8
    ensures { Calls.TrackedKeys limiter.now (tables keys.now hot.now shadows.now)
        answer.old result answer.new }
{
    nultiway::limiter_readers::nultiway_tracked_keys(limiter, keys, hot, shadows, answer)
}
