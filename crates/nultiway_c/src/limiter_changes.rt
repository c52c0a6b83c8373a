// A limiter made, its cap set, its counts and ticks.
ghost use Rattle.peers.specs.Peers.State as peer-state;
ghost use Rattle.limiter.specs.State.{tables};
ghost use Rattle.nultiway.specs.LimiterCalls as Calls;

// Makes a limiter with no key yet.
#[unsafe(no_mangle)]
pub extern "C" fn nultiway_limiter_new(
    limiter: &mut [u64],
    keys: &[u64],
    hot: &[u64],
    shadows: &[u64],
    rate: f64,
    burst: u32,
    alpha: f64,
    floor_factor: f64,
    cooldown: u64,
    hot_set_size: u64,
    max_tracked_keys: u64,
    demand_time_constant: u64,
    table_size: u64,
) -> u8
    ensures { Calls.New limiter.old (tables keys.now hot.now shadows.now)
        (Calls.config rate burst alpha floor_factor cooldown hot_set_size max_tracked_keys
        demand_time_constant table_size)
        result limiter.new }
{
    nultiway::limiter_changes::nultiway_limiter_new(
        limiter,
        keys,
        hot,
        shadows,
        rate,
        burst,
        alpha,
        floor_factor,
        cooldown,
        hot_set_size,
        max_tracked_keys,
        demand_time_constant,
        table_size,
    )
}

// Asks questions 1 and 2 of a limiter and its tables.
#[unsafe(no_mangle)]
pub extern "C" fn nultiway_limiter_ask(
    limiter: &[u64],
    keys: &[u64],
    hot: &[u64],
    shadows: &[u64],
) -> u8
    ensures { Calls.Ask limiter.now (tables keys.now hot.now shadows.now) result }
{
    nultiway::limiter_changes::nultiway_limiter_ask(limiter, keys, hot, shadows)
}

// Sets the cap, the greatest part of its limit that a key gets, or lifts it where `has_cap` is 0 or
// the cap is NaN: for a new key at once, for a tracked one from the next tick on.
#[unsafe(no_mangle)]
pub extern "C" fn nultiway_set_cap(
    limiter: &mut [u64],
    keys: &[u64],
    hot: &[u64],
    shadows: &[u64],
    has_cap: u8,
    cap: f64,
) -> u8
    ensures { Calls.SetCap limiter.old (tables keys.now hot.now shadows.now)
        (Calls.cap_given has_cap cap) result limiter.new }
{
    nultiway::limiter_changes::nultiway_set_cap(limiter, keys, hot, shadows, has_cap, cap)
}

// Adds attempts and denials of a key that were counted elsewhere, and gives it the limit, without
// asking its meter; a key that is not tracked is made.
#[unsafe(no_mangle)]
pub extern "C" fn nultiway_record(
    limiter: &mut [u64],
    keys: &mut [u64],
    hot: &[u64],
    shadows: &[u64],
    key: u64,
    attempts: u64,
    denials: u64,
    shadow_denials: u64,
    rate: f64,
    burst: u32,
    reading: u64,
    cluster_size: u64,
) -> u8
    ensures { Calls.Record limiter.old (tables keys.old hot.now shadows.now) key
        (Calls.tally attempts denials shadow_denials)
        (Calls.limit rate burst) reading cluster_size result limiter.new
        (tables keys.new hot.now shadows.now) }
{
    nultiway::limiter_changes::nultiway_record(
        limiter,
        keys,
        hot,
        shadows,
        key,
        attempts,
        denials,
        shadow_denials,
        rate,
        burst,
        reading,
        cluster_size,
    )
}

// Does the work of a period: estimators, hot set, quotas, and the keys that go.
#[unsafe(no_mangle)]
pub extern "C" fn nultiway_tick(
    limiter: &mut [u64],
    keys: &mut [u64],
    hot: &mut [u64],
    shadows: &mut [u64],
    reading: u64,
    cluster_size: u64,
) -> u8
    ensures { Calls.Tick limiter.old (tables keys.old hot.old shadows.old) reading cluster_size result
        limiter.new (tables keys.new hot.new shadows.new) }
{
    nultiway::limiter_changes::nultiway_tick(limiter, keys, hot, shadows, reading, cluster_size)
}

// Does the same with what the peers told: they decide a hot key's share, and which keys are hot
// elsewhere.
#[unsafe(no_mangle)]
pub extern "C" fn nultiway_tick_with_shares(
    limiter: &mut [u64],
    keys: &mut [u64],
    hot: &mut [u64],
    shadows: &mut [u64],
    peers: &[u64],
    peer_table: &[u64],
    snapshot_keys: &[u64],
    contested: &[u64],
    reading: u64,
    cluster_size: u64,
) -> u8
    ensures { Calls.TickWithShares limiter.old (tables keys.old hot.old shadows.old) peers.now
        (peer-state.tables peer_table.now snapshot_keys.now contested.now) reading cluster_size result
        limiter.new
        (tables keys.new hot.new shadows.new) }
{
    nultiway::limiter_changes::nultiway_tick_with_shares(
        limiter,
        keys,
        hot,
        shadows,
        peers,
        peer_table,
        snapshot_keys,
        contested,
        reading,
        cluster_size,
    )
}
