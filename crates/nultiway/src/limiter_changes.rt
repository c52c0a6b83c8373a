// A limiter made, its cap set, its counts and ticks.
ghost use Rattle.std.specs.Prelude.{◌≡◌};
ghost use Rattle.peers.specs.Peers.State as peer-state;
ghost use Rattle.limiter.specs.State.{tables};
ghost use Rattle.nultiway.specs.LimiterCalls as Calls;

use crate::answers::{change_number, put_answer};
use crate::values::{
    LIMITER_WORDS, ask_limiter, limiter_of, peers_have_room, peers_of, put_limiter,
};
use limiter::{Config, Limit, Limiter, Tally};

// Makes a limiter with no key yet.
#[unsafe(no_mangle)]
pub extern "C" fn nultiway_limiter_new(
    limiter: &mut [u64],
    keys: &[u64],
    hot: &[u64],
    shadows: &[u64],
    rate: f64,
    burst: u32,
    alpha: f64,
    floor_factor: f64,
    cooldown: u64,
    hot_set_size: u64,
    max_tracked_keys: u64,
    demand_time_constant: u64,
    table_size: u64,
) -> u8
    ensures { Calls.New limiter.old (tables keys.now hot.now shadows.now)
        (Calls.config rate burst alpha floor_factor cooldown hot_set_size max_tracked_keys
        demand_time_constant table_size)
        result limiter.new }
{
    if limiter.len() < LIMITER_WORDS {
        return 1;
    }
    let config = Config {
        limit: Limit { rate, burst },
        alpha,
        floor_factor,
        cooldown,
        hot_set_size: hot_set_size as usize,
        max_tracked_keys: max_tracked_keys as usize,
        demand_time_constant,
        table_size: table_size as usize,
    };
    put_answer(limiter, Limiter::new(config, keys, hot, shadows))
}

// The cap, or none where `has_cap` is 0.
fn cap_given(has_cap: u8, cap: f64) -> Option<f64>
    ensures { result ≡ Calls.cap_given has_cap cap }
{
    if has_cap == 0 {
        return None;
    }
    Some(cap)
}

// Asks questions 1 and 2 of a limiter and its tables.
#[unsafe(no_mangle)]
pub extern "C" fn nultiway_limiter_ask(
    limiter: &[u64],
    keys: &[u64],
    hot: &[u64],
    shadows: &[u64],
) -> u8
    ensures { Calls.Ask limiter.now (tables keys.now hot.now shadows.now) result }
{
    let no = ask_limiter(limiter, keys.len(), hot.len(), shadows.len(), true);
    if no != 0 {
        return no;
    }
    change_number(limiter_of(limiter).ask(keys, hot, shadows))
}

// Sets the cap, the greatest part of its limit that a key gets, or lifts it where `has_cap` is 0 or
// the cap is NaN: for a new key at once, for a tracked one from the next tick on.
#[unsafe(no_mangle)]
pub extern "C" fn nultiway_set_cap(
    limiter: &mut [u64],
    keys: &[u64],
    hot: &[u64],
    shadows: &[u64],
    has_cap: u8,
    cap: f64,
) -> u8
    ensures { Calls.SetCap limiter.old (tables keys.now hot.now shadows.now)
        (Calls.cap_given has_cap cap) result limiter.new }
{
    let no = ask_limiter(limiter, keys.len(), hot.len(), shadows.len(), true);
    if no != 0 {
        return no;
    }
    let before = limiter_of(limiter);
    let changed = before.set_cap(keys, hot, shadows, cap_given(has_cap, cap));
    let after = changed.limiter;
    let said = changed.answer;
    put_limiter(limiter, after);
    change_number(said)
}

// Adds attempts and denials of a key that were counted elsewhere, and gives it the limit, without
// asking its meter; a key that is not tracked is made.
#[unsafe(no_mangle)]
pub extern "C" fn nultiway_record(
    limiter: &mut [u64],
    keys: &mut [u64],
    hot: &[u64],
    shadows: &[u64],
    key: u64,
    attempts: u64,
    denials: u64,
    shadow_denials: u64,
    rate: f64,
    burst: u32,
    reading: u64,
    cluster_size: u64,
) -> u8
    ensures { Calls.Record limiter.old (tables keys.old hot.now shadows.now) key
        (Calls.tally attempts denials shadow_denials)
        (Calls.limit rate burst) reading cluster_size result limiter.new
        (tables keys.new hot.now shadows.now) }
{
    let no = ask_limiter(limiter, keys.len(), hot.len(), shadows.len(), true);
    if no != 0 {
        return no;
    }
    let before = limiter_of(limiter);
    let tally = Tally {
        attempts,
        denials,
        shadow_denials,
    };
    let limit = Limit { rate, burst };
    let nodes = cluster_size as usize;
    let changed = before.record(keys, hot, shadows, key, tally, limit, reading, nodes);
    let after = changed.limiter;
    let said = changed.answer;
    put_limiter(limiter, after);
    change_number(said)
}

// Does the work of a period: estimators, hot set, quotas, and the keys that go.
#[unsafe(no_mangle)]
pub extern "C" fn nultiway_tick(
    limiter: &mut [u64],
    keys: &mut [u64],
    hot: &mut [u64],
    shadows: &mut [u64],
    reading: u64,
    cluster_size: u64,
) -> u8
    ensures { Calls.Tick limiter.old (tables keys.old hot.old shadows.old) reading cluster_size result
        limiter.new (tables keys.new hot.new shadows.new) }
{
    let no = ask_limiter(limiter, keys.len(), hot.len(), shadows.len(), true);
    if no != 0 {
        return no;
    }
    let before = limiter_of(limiter);
    let changed = before.tick(keys, hot, shadows, reading, cluster_size as usize);
    let after = changed.limiter;
    let said = changed.answer;
    put_limiter(limiter, after);
    change_number(said)
}

// Does the same with what the peers told: they decide a hot key's share, and which keys are hot
// elsewhere.
#[unsafe(no_mangle)]
pub extern "C" fn nultiway_tick_with_shares(
    limiter: &mut [u64],
    keys: &mut [u64],
    hot: &mut [u64],
    shadows: &mut [u64],
    peers: &[u64],
    peer_table: &[u64],
    snapshot_keys: &[u64],
    contested: &[u64],
    reading: u64,
    cluster_size: u64,
) -> u8
    ensures { Calls.TickWithShares limiter.old (tables keys.old hot.old shadows.old) peers.now
        (peer-state.tables peer_table.now snapshot_keys.now contested.now) reading cluster_size result
        limiter.new
        (tables keys.new hot.new shadows.new) }
{
    let room = peers_have_room(
        true,
        peers.len(),
        peer_table.len(),
        snapshot_keys.len(),
        contested.len(),
    );
    let no = ask_limiter(limiter, keys.len(), hot.len(), shadows.len(), room);
    if no != 0 {
        return no;
    }
    let before = limiter_of(limiter);
    let demand = peers_of(peers);
    let nodes = cluster_size as usize;
    let changed = before.tick_with_shares(
        keys,
        hot,
        shadows,
        demand,
        peer_table,
        snapshot_keys,
        contested,
        reading,
        nodes,
    );
    let after = changed.limiter;
    let said = changed.answer;
    put_limiter(limiter, after);
    change_number(said)
}
