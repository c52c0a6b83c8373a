// Pass one of a tick: folds the estimators of all keys, updates the hot set, and drops the keys
// that are idle.
ghost use Rattle.std.specs.Prelude.{◌≡◌, true, ◌&&◌, ◌*◌, ◌≤◌, length, take};
ghost use Rattle.gcra.specs.Packed.{valid_quota};
ghost use Rattle.gcra.specs.Meter.{has_debt};
ghost use Rattle.limiter.specs.State.{parameters_of, settings_of, units_in, key_of};
ghost use Rattle.limiter.specs.Steps.TickSteps.{flagged, LentKeys, LentKey};
ghost use Rattle.limiter.specs.Steps.PassOneSteps.{is_demand, stays_if, set_of, Measured, LentHot, HotUpdated};
ghost use Rattle.limiter.specs.Steps.PassOneSteps.{staying_keys, IdleDropped, Passable, PassesOne};
ghost use Rattle.limiter.specs.Steps.KeySteps.{units};

use crate::{KEY_WORDS, Limiter, MAX_KEYS, key_record, parameters_of, ticks};
use gcra::Gcra;
use hot::hot_set::HotSet;

// How many keys and hot entries are left.
#[derive(Clone, Copy)]
pub(crate) struct Passed {
    pub keys: usize,
    pub hot: usize,
}

// Whether a key with this rate is in demand: at least at the silent level.
fn is_demand(silent: f64, rate: f64) -> bool
    ensures { result ≡ is_demand silent rate }
{
    silent <= rate
}

// Whether a key with this demand, which a peer holds or not, counts as hot elsewhere.
fn is_elsewhere(silent: f64, rate: f64, held: bool) -> bool
    ensures { result ≡ (is_demand silent rate && held) }
{
    is_demand(silent, rate) && held
}

// Works out what the hot set's update of each key is given: its demand, its threshold, and whether
// it is in demand and a peer holds it. The threshold is a part, alpha, of the even split.
fn measure_keys(
    keys: &[u64],
    n: usize,
    silent: f64,
    alpha: f64,
    cluster_size: f64,
    elsewhere: &[bool],
    demands: &mut [f64],
    thresholds: &mut [f64],
    flags: &mut [bool],
)
    requires n_in_bounds { (n * 22 ≤ length keys.now) × (n ≤ length elsewhere.now) }
    requires n_in_bounds_2 { (n ≤ length demands.old) × (n ≤ length thresholds.old) × (n ≤ length flags.old) }
    ensures { Measured units silent n keys.now alpha cluster_size elsewhere.now demands.new
        thresholds.new flags.new }
{
    for i in 0..n {
        let at = i * KEY_WORDS;
        let rate = float::from_bits(keys[at + 3]);
        demands[i] = rate;
        thresholds[i] = float::from_bits(keys[at + 1]) / cluster_size * alpha;
        flags[i] = is_elsewhere(silent, rate, elsewhere[i]);
    }
}

// The limiter's hot set.
pub(crate) fn set_of(limiter: Limiter) -> HotSet
    ensures { result ≡ set_of limiter }
{
    HotSet {
        cooldown: limiter.config.cooldown,
        max_size: limiter.config.hot_set_size,
        len: limiter.hot,
    }
}

// Updates the hot set for each key in its turn; tells how many entries it has then. Sets the flag of
// each key that is in demand and that a peer holds, and that of each key that is hot.
fn update_hot(
    limiter: Limiter,
    silent: f64,
    keys: &[u64],
    hot: &mut [u64],
    elsewhere: &[bool],
    reading: u64,
    cluster_size: usize,
    flags: &mut [bool],
    hots: &mut [bool],
) -> usize
    requires lent_keys { LentKeys (units_in limiter) limiter.keys keys.now × LentHot limiter hot.old × (limiter.keys ≤ 4096) }
    requires keys_in_bounds { (limiter.keys ≤ length elsewhere.now) × (limiter.keys ≤ length flags.old) ×
        (limiter.keys ≤ length hots.old) }
    ensures { HotUpdated (parameters_of (settings_of limiter)).eviction_margin silent limiter reading cluster_size
        keys.now hot.old elsewhere.now result hot.new flags.new
        hots.new }
{
    let size = float::u64_to_f64(cluster_size as u64);
    let mut demands = [0.0; MAX_KEYS];
    let mut thresholds = [0.0; MAX_KEYS];
    measure_keys(
        keys,
        limiter.keys,
        silent,
        limiter.config.alpha,
        size,
        elsewhere,
        &mut demands,
        &mut thresholds,
        flags,
    );
    match set_of(limiter).update_each(
        hot,
        keys,
        KEY_WORDS,
        limiter.keys,
        &demands,
        &thresholds,
        flags,
        reading,
        hots,
    ) {
        Ok(left) => left.len,
        Err(_) => 0,
    }
}

// Whether the meter's TAT is ahead of the reading.
fn has_debt(meter: Gcra, reading: u64) -> bool
    requires { valid_quota units meter.quota ≡ true }
    ensures { result ≡ has_debt meter reading }
{
    meter.has_debt(reading).unwrap_or(true)
}

// Whether the key in these words stays: it is hot, or has debt, demand or attempts not folded in
// yet.
#[tactic(auto, using(crate::proofs::PassTwo::QuotaLaws::lent_long, crate::proofs::PassTwo::QuotaLaws::lent_unpacks))]
fn key_stays(r: &[u64], silent: f64, reading: u64, hot: bool) -> bool
    requires { LentKey units r.now }
    ensures { result ≡ stays_if silent reading (key_of units r.now) hot }
{
    hot || is_demand(silent, float::from_bits(r[3]))
        || 0 < r[4]
        || has_debt(key_record::meter_of_words(r, 19), reading)
}

// Sets the flag of each key that stays.
fn mark_busy(keys: &[u64], n: usize, silent: f64, reading: u64, hots: &[bool], stays: &mut [bool])
    requires { LentKeys units n keys.now × (n ≤ length hots.now) × (n ≤ length stays.old) }
    ensures { take n stays.new ≡ staying_keys units silent reading n keys.now hots.now }
{
    for i in 0..n {
        let at = i * KEY_WORDS;
        stays[i] = key_stays(&keys[at..at + KEY_WORDS], silent, reading, hots[i]);
    }
}

// Copies to the front of `to` those of the n values whose flag is set.
fn copy_flagged(from: &[bool], n: usize, stays: &[bool], to: &mut [bool])
    requires { (n ≤ length from.now) × (n ≤ length stays.now) × (n ≤ length to.old) }
    ensures { take (length (flagged (take n stays.now) (take n from.now))) to.new ≡
        flagged (take n stays.now) (take n from.now) }
{
    let mut kept = 0;
    for i in 0..n {
        if stays[i] {
            to[kept] = from[i];
            kept += 1;
        }
    }
}

// Drops the idle keys; tells how many are left. The flag of each of those goes to its place in
// `elsewhere`.
fn drop_idle(
    keys: &mut [u64],
    n: usize,
    silent: f64,
    reading: u64,
    hots: &[bool],
    flags: &[bool],
    elsewhere: &mut [bool],
) -> usize
    requires lent_keys { LentKeys units n keys.old × (n ≤ 4096) × (n ≤ length hots.now) }
    requires n_in_bounds { (n ≤ length flags.now) × (n ≤ length elsewhere.old) }
    ensures { IdleDropped units silent reading n keys.old hots.now flags.now result keys.new
        elsewhere.new }
{
    let mut stays = [false; MAX_KEYS];
    mark_busy(keys, n, silent, reading, hots, &mut stays);
    copy_flagged(flags, n, &stays, elsewhere);
    ticks::keep_flagged(keys, KEY_WORDS, n, &stays)
}

// Pass one of a tick of a limiter that passed its questions, with the peers' flag of each key: what
// is left is at the front of the tables, and the flags of the keys that are left are those in demand
// that a peer holds.
pub(crate) fn pass_one(
    limiter: Limiter,
    keys: &mut [u64],
    hot: &mut [u64],
    elsewhere: &mut [bool],
    reading: u64,
    cluster_size: usize,
) -> Passed
    requires { Passable limiter keys.old hot.old elsewhere.old }
    ensures { PassesOne (parameters_of (settings_of limiter)) limiter reading cluster_size keys.old
        hot.old elsewhere.old result keys.new hot.new elsewhere.new }
{
    let par = parameters_of(limiter);
    let n = limiter.keys;
    ticks::fold_keys(
        keys,
        n,
        reading,
        limiter.config.demand_time_constant,
        par.denial_time_constant,
    );
    let mut flags = [false; MAX_KEYS];
    let mut hots = [false; MAX_KEYS];
    let entries = update_hot(
        limiter,
        par.silent_level,
        keys,
        hot,
        elsewhere,
        reading,
        cluster_size,
        &mut flags,
        &mut hots,
    );
    let left = drop_idle(keys, n, par.silent_level, reading, &hots, &flags, elsewhere);
    Passed {
        keys: left,
        hot: entries,
    }
}
