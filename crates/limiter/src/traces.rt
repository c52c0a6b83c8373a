// The shadow of a key: a limit that is only tried out. Its meter stands in a table of its own, of
// which the first n records of four words are in use: key, packed quota and TAT.
ghost use Rattle.std.specs.Prelude.{◌≡◌, true, ◌++◌, ◌*◌, ◌≤◌, length};
ghost use Rattle.gcra.specs.Packed.{valid_burst, valid_quota};
ghost use Rattle.gcra.specs.Rate.{set_quota};
ghost use Rattle.questions.specs.Questions.{first_no};
ghost use Rattle.limiter.specs.State as State;
ghost use Rattle.limiter.specs.Checks as Checks;
ghost use Rattle.limiter.specs.Calls as Calls;
ghost use Rattle.limiter.specs.Steps.KeySteps.{units};
ghost use Rattle.limiter.specs.Steps.TraceSteps.{ShadowsReady, ShadowPlaced, EntersShadow, with_shadow};
ghost use Rattle.limiter.specs.Steps.TraceSteps.{without_shadow, HoldsShadows, Tries};
ghost use Rattle.limiter.specs.Steps.TraceSteps.{Roomy, Traces};
ghost use Rattle.limiter.specs.Steps.CheckSteps.{Ready};
ghost use Rattle.questions.specs.Refusals.{asked};

use crate::{Answered, Limit, Limiter, SHADOW_WORDS, Traced, TracedCheck, checks, key_record};
use gcra::{Decision, Gcra, MAX_INTERVAL, Quota};
use questions::Refusal;
use records::Found;

// The shadow of a call: its place among the records, or where it would go, and its meter.
#[derive(Clone, Copy)]
pub(crate) struct ShadowEntry {
    pub place: Result<usize, usize>,
    pub gcra: Gcra,
}

// What a shadow's meter would decide, and the shadow after it.
#[derive(Clone, Copy)]
pub(crate) struct Tried {
    pub decision: Decision,
    pub after: ShadowEntry,
}

// The shadow's quota: the key's rate times shadow limit ÷ limit, and the shadow's burst.
pub(crate) fn shadow_quota(quota: Quota, limit: Limit, shadow: Limit) -> Quota
    requires { valid_quota units quota ≡ true }
    ensures { result ≡ Checks.shadow_quota units quota limit shadow }
{
    let rate = quota.rate_per_sec().unwrap_or(0.0);
    checks::quota_for(rate * shadow.rate / limit.rate, shadow.burst)
}

// A meter under another quota.
fn under_quota(gcra: Gcra, wanted: Quota, reading: u64) -> Gcra
    requires { (valid_quota units gcra.quota ≡ true) × (valid_quota units wanted ≡ true) }
    ensures { result ≡ set_quota gcra wanted reading }
{
    gcra.set_quota(wanted, reading).gcra
}

// The shadow found, under the quota wanted, or a fresh one.
pub(crate) fn shadow_entry(
    shadows: &[u64],
    n: usize,
    key: u64,
    wanted: Quota,
    reading: u64,
) -> ShadowEntry
    requires shadows_ready { ShadowsReady units n shadows.now }
    requires wanted_value { valid_quota units wanted ≡ true }
    ensures { EntersShadow units n shadows.now key wanted reading result }
{
    match records::find(shadows, SHADOW_WORDS, 1, n, key, 0) {
        Found::At(place) => {
            let known = key_record::meter_of_words(shadows, place * SHADOW_WORDS + 1);
            ShadowEntry {
                place: Ok(place),
                gcra: under_quota(known, wanted, reading),
            }
        }
        Found::Gap(place) => ShadowEntry {
            place: Err(place),
            gcra: Gcra {
                quota: wanted,
                tat: None,
            },
        },
        Found::Unfit => ShadowEntry {
            place: Err(0),
            gcra: Gcra {
                quota: wanted,
                tat: Some(u64::MAX),
            },
        },
    }
}

// Writes a shadow's record at its place; how many there are then.
pub(crate) fn put_shadow(shadows: &mut [u64], n: usize, key: u64, entry: ShadowEntry) -> usize
    requires shadows_ready { ShadowsReady units n shadows.old }
    requires shadow_placed { ShadowPlaced n shadows.old key entry.place }
    requires quota_value { valid_quota units entry.gcra.quota ≡ true }
    requires gcra_in_bounds { length (with_shadow units n shadows.old key entry.gcra) * 4 ≤ length shadows.old }
    ensures { HoldsShadows units (with_shadow units n shadows.old key entry.gcra) shadows.old result
        shadows.new }
{
    let meter = key_record::meter_words(entry.gcra);
    let words = [key, meter[0], meter[1], meter[2]];
    match entry.place {
        Ok(place) => {
            records::overwrite(shadows, SHADOW_WORDS, n, place, &words);
            n
        }
        Err(place) => {
            records::insert(shadows, SHADOW_WORDS, n, place, &words);
            n + 1
        }
    }
}

// Takes a key's shadow out, if it has one; how many there are then.
pub(crate) fn drop_shadow(shadows: &mut [u64], n: usize, key: u64) -> usize
    requires { ShadowsReady units n shadows.old }
    ensures { HoldsShadows units (without_shadow units n shadows.old key) shadows.old result shadows.new }
{
    match records::find(shadows, SHADOW_WORDS, 1, n, key, 0) {
        Found::At(place) => {
            records::remove(shadows, SHADOW_WORDS, n, place);
            n - 1
        }
        _ => n,
    }
}

// Asks the meter of a key's shadow.
fn try_shadow(shadows: &[u64], n: usize, key: u64, wanted: Quota, reading: u64) -> Tried
    requires shadows_ready { ShadowsReady units n shadows.now }
    requires wanted_value { valid_quota units wanted ≡ true }
    ensures { Tries units n shadows.now key wanted reading result }
{
    let found = shadow_entry(shadows, n, key, wanted, reading);
    let asked = checks::ask_meter(found.gcra, reading);
    Tried {
        decision: asked.decision,
        after: ShadowEntry {
            gcra: asked.gcra,
            ..found
        },
    }
}

// What `check_in_traced` does with no shadow limit: a check, and the key's shadow is dropped.
pub(crate) fn trace_none(
    limiter: Limiter,
    keys: &mut [u64],
    shadows: &mut [u64],
    key: u64,
    limit: Limit,
    reading: u64,
    cluster_size: usize,
) -> TracedCheck
    requires ready { Ready limiter keys.old }
    requires shadows_ready { ShadowsReady (State.units_in limiter) limiter.shadows shadows.old }
    requires burst_value { valid_burst limit.burst ≡ true }
    ensures { Traces limiter keys.old shadows.old key limit None reading cluster_size result
        keys.new shadows.new }
{
    let n = limiter.shadows;
    let checked = checks::check_key(limiter, keys, key, limit, reading, cluster_size);
    match checked.answer {
        Err(no) => Answered::refused(no, checked.limiter),
        Ok(decision) => {
            let count = drop_shadow(shadows, n, key);
            TracedCheck {
                answer: Ok(Traced {
                    decision,
                    shadow: None,
                }),
                limiter: Limiter {
                    shadows: count,
                    ..checked.limiter
                },
            }
        }
    }
}

// What it does with one: the shadow's meter is asked too, and its record written.
pub(crate) fn trace_with(
    limiter: Limiter,
    keys: &mut [u64],
    shadows: &mut [u64],
    key: u64,
    limit: Limit,
    shadow: Limit,
    reading: u64,
    cluster_size: usize,
) -> TracedCheck
    requires ready { Ready limiter keys.old }
    requires shadows_ready { ShadowsReady (State.units_in limiter) limiter.shadows shadows.old }
    requires burst_value { (valid_burst limit.burst ≡ true) × (valid_burst shadow.burst ≡ true) }
    requires roomy { Roomy limiter keys.old shadows.old key limit shadow reading cluster_size }
    ensures { Traces limiter keys.old shadows.old key limit (Some shadow) reading cluster_size result
        keys.new shadows.new }
{
    let found = checks::entry(limiter, keys, key, limit, reading, cluster_size);
    let asked = checks::ask_meter(found.state.gcra, reading);
    let denials = checks::denied(asked.decision);
    let n = limiter.shadows;
    let wanted = shadow_quota(found.state.gcra.quota, limit, shadow);
    let tried = try_shadow(shadows, n, key, wanted, reading);
    let tried_denials = checks::denied(tried.decision);
    let raised = checks::raise(limiter, keys, found, 1, denials, tried_denials, asked.gcra);
    if let Err(no) = raised.answer {
        return Answered::refused(no, raised.limiter);
    }
    let count = put_shadow(shadows, n, key, tried.after);
    TracedCheck {
        answer: Ok(Traced {
            decision: asked.decision,
            shadow: Some(tried.decision),
        }),
        limiter: Limiter {
            shadows: count,
            ..raised.limiter
        },
    }
}

// ---- the public call

impl Limiter {
    // A check under the limit given, and the shadow's decision beside it.
    pub fn check_in_traced(
        self,
        keys: &mut [u64],
        hot: &[u64],
        shadows: &mut [u64],
        key: u64,
        limit: Limit,
        shadow: Option<Limit>,
        reading: u64,
        cluster_size: usize,
    ) -> TracedCheck
        ensures { Calls.ChecksTraced self (State.tables keys.old hot.now shadows.old) key limit shadow reading
            cluster_size result (State.tables keys.new hot.now shadows.new) }
    {
        if let Err(no) = self.ask_limits(keys, hot, shadows, limit, shadow, cluster_size) {
            return Answered::refused(no, self);
        }
        match shadow {
            None => trace_none(self, keys, shadows, key, limit, reading, cluster_size),
            Some(tried) => {
                trace_with(
                    self,
                    keys,
                    shadows,
                    key,
                    limit,
                    tried,
                    reading,
                    cluster_size,
                )
            }
        }
    }
}
