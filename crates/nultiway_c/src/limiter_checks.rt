// Checks of keys.
ghost use Rattle.limiter.specs.State.{tables};
ghost use Rattle.nultiway.specs.LimiterCalls as Calls;

// Decides on a request for a key under the settings' limit: a new key's quota is made of it, a
// tracked key keeps its quota until the next tick, which goes by the limit given last, here this one.
#[unsafe(no_mangle)]
pub extern "C" fn nultiway_check(
    limiter: &mut [u64],
    keys: &mut [u64],
    hot: &[u64],
    shadows: &[u64],
    key: u64,
    reading: u64,
    cluster_size: u64,
    answer: &mut [u64],
) -> u8
    ensures { Calls.Check limiter.old (tables keys.old hot.now shadows.now) key reading cluster_size
        answer.old result
        limiter.new (tables keys.new hot.now shadows.now) answer.new }
{
    nultiway::limiter_checks::nultiway_check(
        limiter,
        keys,
        hot,
        shadows,
        key,
        reading,
        cluster_size,
        answer,
    )
}

// Decides on a request for a key under the limit given: a new key's quota is made of it, a tracked
// key keeps its quota until the next tick, which goes by the limit given last.
#[unsafe(no_mangle)]
pub extern "C" fn nultiway_check_in(
    limiter: &mut [u64],
    keys: &mut [u64],
    hot: &[u64],
    shadows: &[u64],
    key: u64,
    rate: f64,
    burst: u32,
    reading: u64,
    cluster_size: u64,
    answer: &mut [u64],
) -> u8
    ensures { Calls.CheckIn limiter.old (tables keys.old hot.now shadows.now) key
        (Calls.limit rate burst) reading cluster_size answer.old result
        limiter.new (tables keys.new hot.now shadows.now) answer.new }
{
    nultiway::limiter_checks::nultiway_check_in(
        limiter,
        keys,
        hot,
        shadows,
        key,
        rate,
        burst,
        reading,
        cluster_size,
        answer,
    )
}

// Does the same beside a shadow limit, and tells a decision, whether there is a shadow, and its
// decision: the shadow's quota has the rate of the key's, at the ratio of the two limits' rates, and
// the shadow limit's burst, and where `has_shadow` is 0 the key's shadow is removed.
#[unsafe(no_mangle)]
pub extern "C" fn nultiway_check_in_traced(
    limiter: &mut [u64],
    keys: &mut [u64],
    hot: &[u64],
    shadows: &mut [u64],
    key: u64,
    rate: f64,
    burst: u32,
    has_shadow: u8,
    shadow_rate: f64,
    shadow_burst: u32,
    reading: u64,
    cluster_size: u64,
    answer: &mut [u64],
) -> u8
    ensures { Calls.CheckInTraced limiter.old (tables keys.old hot.now shadows.old) key
        (Calls.limit rate burst)
        (Calls.shadow_given has_shadow (Calls.limit shadow_rate shadow_burst)) reading
        cluster_size answer.old result
        limiter.new (tables keys.new hot.now shadows.new) answer.new }
{
    nultiway::limiter_checks::nultiway_check_in_traced(
        limiter,
        keys,
        hot,
        shadows,
        key,
        rate,
        burst,
        has_shadow,
        shadow_rate,
        shadow_burst,
        reading,
        cluster_size,
        answer,
    )
}

// Checks `count` pairs of a key and a reading under the settings' limit, one after the other: three
// words for each, the number of the question that it fails or 0, whether it is denied, and the retry
// time.
#[unsafe(no_mangle)]
pub extern "C" fn nultiway_check_each(
    limiter: &mut [u64],
    keys: &mut [u64],
    hot: &[u64],
    shadows: &[u64],
    list: &[u64],
    count: u64,
    cluster_size: u64,
    out: &mut [u64],
) -> u8
    ensures { Calls.CheckEach limiter.old (tables keys.old hot.now shadows.now) list.now
        count cluster_size
        out.old result limiter.new (tables keys.new hot.now shadows.now) out.new }
{
    nultiway::limiter_checks::nultiway_check_each(
        limiter,
        keys,
        hot,
        shadows,
        list,
        count,
        cluster_size,
        out,
    )
}
