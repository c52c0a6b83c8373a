// Pass two of a tick: the quota of every key, by the hot set that pass one settled.
ghost use Rattle.std.specs.Prelude.{◌≡◌, true, map, ◌≤◌, length};
ghost use Rattle.records.specs.Records.{table};
ghost use Rattle.gcra.specs.Packed.{valid_quota};
ghost use Rattle.gcra.specs.Rate.{set_quota};
ghost use Rattle.demand.specs.Allocation.{is_rate};
ghost use Rattle.hot.specs.HotSet.Set.{entries};
ghost use Rattle.hot.specs.HotSet.Steps.{EntriesReady};
ghost use Rattle.limiter.specs.State.{key_words, key_of};
ghost use Rattle.limiter.specs.Steps.TickSteps.{key_records, LentKeys, LentKey};
ghost use Rattle.limiter.specs.Steps.PassTwoSteps.{GoodTerms, terms_of, share_by, hot_rate, cold_rate, rate_by};
ghost use Rattle.limiter.specs.Steps.PassTwoSteps.{quota_row, requoted};
ghost use Rattle.limiter.specs.Steps.KeySteps.{units};

use crate::{HOT_WORDS, KEY_WORDS, Limiter, checks, key_record};
use demand::allocation::View;
use gcra::{Gcra, Quota};
use records::Found;

// What the rates of a tick are worked out from: whether hot keys share evenly, there being no peers;
// the settings' parts of a limit; and the cluster's size.
#[derive(Clone, Copy)]
pub(crate) struct RateTerms {
    pub even: bool,
    pub alpha: f64,
    pub floor_factor: f64,
    pub cap: f64,
    pub cluster_size: usize,
}

impl RateTerms {
    // Those of a limiter.
    pub(crate) fn of(limiter: Limiter, even: bool, cluster_size: usize) -> RateTerms
        ensures { result ≡ terms_of limiter even cluster_size }
    {
        RateTerms {
            even,
            alpha: limiter.config.alpha,
            floor_factor: limiter.config.floor_factor,
            cap: checks::cap_or_none(limiter.cap),
            cluster_size,
        }
    }
}

// The share of a hot key.
fn share_of(limit: f64, own: f64, total: f64, terms: RateTerms) -> f64
    requires { (is_rate limit ≡ true) × GoodTerms terms }
    ensures { result ≡ share_by terms limit own total }
{
    if terms.even {
        return limit / float::u64_to_f64(terms.cluster_size as u64);
    }
    let view = View {
        limit,
        cluster_size: terms.cluster_size,
        floor_factor: terms.floor_factor,
        own,
        others: total,
    };
    demand::allocation::share(view).unwrap_or(0.0)
}

// The rate of a hot key: its share, no more than the cap allows.
fn hot_rate(limit: f64, own: f64, total: f64, terms: RateTerms) -> f64
    requires { (is_rate limit ≡ true) × GoodTerms terms }
    ensures { result ≡ hot_rate terms limit own total }
{
    float::min(share_of(limit, own, total, terms), limit * terms.cap)
}

// The rate of a key that is not hot: a part of the even split, no more than the floor where a peer
// holds it hot, nor than the cap allows.
fn cold_rate(limit: f64, elsewhere: bool, terms: RateTerms) -> f64
    ensures { result ≡ cold_rate terms elsewhere limit }
{
    let size = float::u64_to_f64(terms.cluster_size as u64);
    let cold = limit / size * terms.alpha;
    let rate = if elsewhere {
        float::min(limit * terms.floor_factor / size, cold)
    } else {
        cold
    };
    float::min(rate, limit * terms.cap)
}

// The rate of the key in these words; a hot key's total is at the place of its entry.
#[tactic(auto, using(crate::proofs::PassTwo::QuotaLaws::lent_long))]
fn key_rate(
    r: &[u64],
    hot: &[u64],
    h: usize,
    elsewhere: bool,
    totals: &[f64],
    terms: RateTerms,
) -> f64
    requires { LentKey units r.now × EntriesReady h hot.now × (h ≤ length totals.now) × GoodTerms terms }
    ensures { result ≡ rate_by terms (entries h hot.now) totals.now elsewhere (key_of units r.now) }
{
    let limit = float::from_bits(r[1]);
    match records::find(hot, HOT_WORDS, 1, h, r[0], 0) {
        Found::At(place) => hot_rate(limit, float::from_bits(r[3]), totals[place], terms),
        _ => cold_rate(limit, elsewhere, terms),
    }
}

// The meter with another quota.
fn changed(meter: Gcra, quota: Quota, reading: u64) -> Gcra
    requires { (valid_quota units meter.quota ≡ true) × (valid_quota units quota ≡ true) }
    ensures { result ≡ set_quota meter quota reading }
{
    meter.set_quota(quota, reading).gcra
}

// Gives the key in these words the quota of a rate.
#[tactic(auto, using(crate::proofs::PassTwo::QuotaLaws::lent_long, crate::proofs::PassTwo::QuotaLaws::lent_unpacks))]
fn set_quota(r: &mut [u64], rate: f64, reading: u64)
    requires { LentKey units r.old }
    ensures { r.new ≡ quota_row units reading rate r.old }
{
    let quota = checks::quota_for(rate, r[2] as u32);
    let meter = key_record::meter_of_words(r, 19);
    r[19..KEY_WORDS].copy_from_slice(&key_record::meter_words(changed(meter, quota, reading)));
}

// Gives the key in these words the quota of its rate.
fn set_key_quota(
    r: &mut [u64],
    hot: &[u64],
    h: usize,
    elsewhere: bool,
    totals: &[f64],
    terms: RateTerms,
    reading: u64,
)
    requires { LentKey units r.old × EntriesReady h hot.now × (h ≤ length totals.now) × GoodTerms terms }
    ensures { r.new ≡
        quota_row units reading
        (rate_by terms (entries h hot.now) totals.now elsewhere (key_of units r.old))
        r.old }
{
    let rate = key_rate(r, hot, h, elsewhere, totals, terms);
    set_quota(r, rate, reading);
}

// Gives every key the quota of its rate, in place.
pub(crate) fn set_quotas(
    keys: &mut [u64],
    n: usize,
    hot: &[u64],
    h: usize,
    elsewhere: &[bool],
    totals: &[f64],
    terms: RateTerms,
    reading: u64,
)
    requires { LentKeys units n keys.old × EntriesReady h hot.now × (n ≤ length elsewhere.now) × (h ≤ length totals.now) ×
        GoodTerms terms }
    ensures { keys.new ≡
        table
        (map (key_words units)
        (requoted units terms (entries h hot.now) totals.now reading elsewhere.now
        (key_records units n keys.old))) keys.old }
{
    for i in 0..n {
        let at = i * KEY_WORDS;
        set_key_quota(
            &mut keys[at..at + KEY_WORDS],
            hot,
            h,
            elsewhere[i],
            totals,
            terms,
            reading,
        );
    }
}
