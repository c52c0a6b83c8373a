// A check and a record of one key: the key is found in the table or made, its questions are asked,
// and then its record is written. The private functions are of a limiter that passed questions 1
// and 2.
ghost use Rattle.std.specs.Prelude.{◌≡◌, true, ◌&&◌, ◌||◌, ◌++◌, ltb};
ghost use Rattle.gcra.specs.Packed.{valid_burst, valid_quota};
ghost use Rattle.gcra.specs.Meter.{decision, check};
ghost use Rattle.gcra.specs.Rate.{per_second};
ghost use Rattle.questions.specs.Questions.{first_no};
ghost use Rattle.demand.specs.Allocation.{is_rate};
ghost use Rattle.limiter.specs.State as State;
ghost use Rattle.limiter.specs.Checks as Checks;
ghost use Rattle.limiter.specs.Calls as Calls;
ghost use Rattle.limiter.specs.Steps.KeySteps.{units, key_record};
ghost use Rattle.limiter.specs.Steps.CheckSteps.{Ready, Placed, Enters, Asks, Puts, Raises};
ghost use Rattle.limiter.specs.Steps.CheckSteps.{ChecksKey, RecordsKey};
ghost use Rattle.questions.specs.Refusals.{asked};
ghost use Rattle.std.specs.Result.{is_ok};

use crate::key_record::{Estimator, KeyState};
use crate::{Answered, Changed, Checked, KEY_WORDS, Limit, Limiter, Tally};
use demand::allocation::{is_cluster_size, is_rate};
use gcra::{Decision, Gcra, MAX_INTERVAL, Quota};
use questions::Refusal;
use records::Found;

// The key of a call: its place among the records, or where it would go, and its state.
#[derive(Clone, Copy)]
pub(crate) struct KeyEntry {
    pub place: Result<usize, usize>,
    pub state: KeyState,
}

// What a meter decided, and the meter after it.
#[derive(Clone, Copy)]
pub(crate) struct Metered {
    pub decision: Decision,
    pub gcra: Gcra,
}

// ---- questions of the arguments

// Question 3 of a limit and of a shadow's.
fn are_rates(x: f64, y: f64) -> bool
    ensures { result ≡ (is_rate x && is_rate y) }
{
    is_rate(x) && is_rate(y)
}

// Question 4 of both.
fn are_bursts(x: u32, y: u32) -> bool
    ensures { result ≡ (valid_burst x && valid_burst y) }
{
    Quota::burst_fits(x) && Quota::burst_fits(y)
}

// The first of questions 3 and 4 of the limits, and 7, that is answered 'no', if one is. Where there is no
// shadow's, the limit stands for it.
pub(crate) fn ask_limits(
    limit: Limit,
    shadow: Option<Limit>,
    cluster_size: usize,
) -> Result<(), Refusal>
    ensures { asked result ≡ first_no (Checks.both_limit_questions limit shadow ++ Checks.cluster_questions cluster_size) }
{
    let tried = shadow.unwrap_or(limit);
    if !are_rates(limit.rate, tried.rate) {
        return Err(Refusal::Rate);
    }
    if !are_bursts(limit.burst, tried.burst) {
        return Err(Refusal::Burst);
    }
    ask_cluster(cluster_size)
}

// The same for question 7 alone.
pub(crate) fn ask_cluster(cluster_size: usize) -> Result<(), Refusal>
    ensures { asked result ≡ first_no (Checks.cluster_questions cluster_size) }
{
    if !is_cluster_size(cluster_size) {
        return Err(Refusal::ClusterSize);
    }
    Ok(())
}

// ---- the quota of a new key

// A cap that is none is above every part.
pub(crate) fn cap_or_none(cap: Option<f64>) -> f64
    ensures { result ≡ Checks.cap_or_none cap }
{
    cap.unwrap_or(f64::INFINITY)
}

// The rate of a new key as a part of its limit: alpha by the nodes, or the cap if less.
pub(crate) fn new_key_factor(limiter: Limiter, cluster_size: usize) -> f64
    ensures { result ≡ Checks.new_key_factor (State.settings_of limiter) cluster_size }
{
    let nodes = float::u64_to_f64(cluster_size as u64);
    float::min(limiter.config.alpha / nodes, cap_or_none(limiter.cap))
}

// The quota of any rate a second and any burst: the interval is that of a burst of 1.
pub(crate) fn quota_for(rate: f64, burst: u32) -> Quota
    ensures { result ≡ per_second units rate burst }
{
    let paced = Quota::per_second(rate, 1).unwrap_or(Quota {
        interval: MAX_INTERVAL,
        burst: 1,
    });
    Quota { burst, ..paced }
}

// A new key's quota: the cold one.
pub(crate) fn cold_quota(limiter: Limiter, limit: Limit, cluster_size: usize) -> Quota
    ensures { result ≡ Checks.cold_quota (State.units_in limiter) (State.settings_of limiter) limit cluster_size }
{
    let factor = new_key_factor(limiter, cluster_size);
    quota_for(limit.rate * factor, limit.burst)
}

// ---- the key of a call

// A key not seen before. Its estimators start at the last tick, or at the reading if there was none.
fn new_key(limiter: Limiter, key: u64, limit: Limit, reading: u64, cluster_size: usize) -> KeyState
    ensures { key_record result ≡ Checks.new_key (State.units_in limiter) (State.settings_of limiter) key limit reading cluster_size }
{
    let started = Estimator::starting_at(limiter.last_tick.unwrap_or(reading));
    let quota = cold_quota(limiter, limit, cluster_size);
    KeyState {
        key,
        limit,
        demand: started,
        requests: started,
        denials: started,
        shadow_denials: started,
        gcra: Gcra { quota, tat: None },
    }
}

// Where a key can't be looked up, as in a table that no valid limiter has: the longest interval, and
// a TAT that denies at every reading below 2^63.
fn denied_entry(key: u64, limit: Limit) -> KeyEntry {
    let started = Estimator::starting_at(0);
    KeyEntry {
        place: Err(0),
        state: KeyState {
            key,
            limit,
            demand: started,
            requests: started,
            denials: started,
            shadow_denials: started,
            gcra: Gcra {
                quota: Quota {
                    interval: MAX_INTERVAL,
                    burst: limit.burst,
                },
                tat: Some(u64::MAX),
            },
        },
    }
}

// The key found, with the call's limit, or a new one.
pub(crate) fn entry(
    limiter: Limiter,
    keys: &[u64],
    key: u64,
    limit: Limit,
    reading: u64,
    cluster_size: usize,
) -> KeyEntry
    requires { Ready limiter keys.now }
    ensures { Enters limiter keys.now key limit reading cluster_size result }
{
    match records::find(keys, KEY_WORDS, 1, limiter.keys, key, 0) {
        Found::At(place) => {
            KeyEntry {
                place: Ok(place),
                state: KeyState::of_words(keys, place * KEY_WORDS).limited(limit),
            }
        }
        Found::Gap(place) => KeyEntry {
            place: Err(place),
            state: new_key(limiter, key, limit, reading, cluster_size),
        },
        Found::Unfit => denied_entry(key, limit),
    }
}

// ---- asks and acts

// Whether the key is tracked, or the table holds fewer keys than its size.
fn has_place(limiter: Limiter, place: Result<usize, usize>) -> bool
    ensures { result ≡ (is_ok place || ltb limiter.keys limiter.config.table_size) }
{
    place.is_ok() || limiter.keys < limiter.config.table_size
}

// The first of questions 8 and 9 that is answered 'no', if one is: has the key a place, and do its
// counters stay within u64?
pub(crate) fn ask_key(
    limiter: Limiter,
    entry: KeyEntry,
    attempts: u64,
    denials: u64,
    shadow_denials: u64,
) -> Result<(), Refusal>
    ensures { Asks limiter entry attempts denials shadow_denials (asked result) }
{
    if !has_place(limiter, entry.place) {
        return Err(Refusal::TableFull);
    }
    if !entry.state.has_room(attempts, denials, shadow_denials) {
        return Err(Refusal::Counter);
    }
    Ok(())
}

// Writes the key's record at its place, and counts it where it is new.
pub(crate) fn put(limiter: Limiter, keys: &mut [u64], entry: KeyEntry) -> Limiter
    requires ready { Ready limiter keys.old }
    requires placed { Placed limiter keys.old entry.state.key entry.place }
    requires table_size_value { (is_ok entry.place || ltb limiter.keys limiter.config.table_size) ≡ true }
    requires quota_value { valid_quota (State.units_in limiter) entry.state.gcra.quota ≡ true }
    ensures { Puts limiter keys.old (key_record entry.state) result keys.new }
{
    let n = limiter.keys;
    let words = entry.state.words();
    match entry.place {
        Ok(place) => {
            records::overwrite(keys, KEY_WORDS, n, place, &words);
            limiter
        }
        Err(place) => {
            records::insert(keys, KEY_WORDS, n, place, &words);
            Limiter {
                keys: n + 1,
                ..limiter
            }
        }
    }
}

// Asks 8 and 9 of a key with its counters raised and another meter; where both pass, it writes the
// key's record.
pub(crate) fn raise(
    limiter: Limiter,
    keys: &mut [u64],
    entry: KeyEntry,
    attempts: u64,
    denials: u64,
    shadow_denials: u64,
    gcra: Gcra,
) -> Changed
    requires ready { Ready limiter keys.old }
    requires placed { Placed limiter keys.old entry.state.key entry.place }
    requires quota_value { valid_quota (State.units_in limiter) gcra.quota ≡ true }
    ensures { Raises (Checks.raised attempts denials shadow_denials gcra (key_record entry.state))
        limiter keys.old result keys.new }
{
    if let Err(no) = ask_key(limiter, entry, attempts, denials, shadow_denials) {
        return Answered::refused(no, limiter);
    }
    let after = KeyEntry {
        state: entry.state.raised(attempts, denials, shadow_denials, gcra),
        ..entry
    };
    Changed {
        answer: Ok(()),
        limiter: put(limiter, keys, after),
    }
}

// ---- the calls

// Asks a meter whose quota is valid.
pub(crate) fn ask_meter(gcra: Gcra, reading: u64) -> Metered
    requires { valid_quota units gcra.quota ≡ true }
    ensures { (result.decision ≡ decision gcra reading) × (result.gcra ≡ check gcra reading) }
{
    let asked = gcra.check(reading);
    Metered {
        decision: asked
            .answer
            .unwrap_or(Decision::Deny { retry_at: u64::MAX }),
        gcra: asked.gcra,
    }
}

// 1 for a decision that does not allow.
pub(crate) fn denied(decision: Decision) -> u64
    ensures { result ≡ Checks.denied decision }
{
    if decision.is_allow() { 0 } else { 1 }
}

// What `check_in` does once its limit and the cluster size have passed: it finds or makes the key,
// asks the meter and counts the attempt.
pub(crate) fn check_key(
    limiter: Limiter,
    keys: &mut [u64],
    key: u64,
    limit: Limit,
    reading: u64,
    cluster_size: usize,
) -> Checked
    requires ready { Ready limiter keys.old }
    requires burst_value { valid_burst limit.burst ≡ true }
    ensures { ChecksKey limiter keys.old key limit reading cluster_size result keys.new }
{
    let found = entry(limiter, keys, key, limit, reading, cluster_size);
    let asked = ask_meter(found.state.gcra, reading);
    let denials = denied(asked.decision);
    let raised = raise(limiter, keys, found, 1, denials, 0, asked.gcra);
    Checked {
        answer: raised.answer.and(Ok(asked.decision)),
        limiter: raised.limiter,
    }
}

// What `record` does once its limit and the cluster size have passed: it finds or makes the key, and
// counts what was collected for it.
pub(crate) fn record_key(
    limiter: Limiter,
    keys: &mut [u64],
    key: u64,
    tally: Tally,
    limit: Limit,
    reading: u64,
    cluster_size: usize,
) -> Changed
    requires ready { Ready limiter keys.old }
    requires burst_value { valid_burst limit.burst ≡ true }
    ensures { RecordsKey limiter keys.old key tally limit reading cluster_size result keys.new }
{
    let found = entry(limiter, keys, key, limit, reading, cluster_size);
    raise(
        limiter,
        keys,
        found,
        tally.attempts,
        tally.denials,
        tally.shadow_denials,
        found.state.gcra,
    )
}

// ---- the public calls

impl Limiter {
    // Decides on a request for `key` under the settings' limit.
    pub fn check(
        self,
        keys: &mut [u64],
        hot: &[u64],
        shadows: &[u64],
        key: u64,
        reading: u64,
        cluster_size: usize,
    ) -> Checked
        ensures { Calls.Checks self (State.tables keys.old hot.now shadows.now) key reading cluster_size result (State.tables keys.new hot.now shadows.now) }
    {
        if let Err(no) = self.ask_cluster(keys, hot, shadows, cluster_size) {
            return Answered::refused(no, self);
        }
        check_key(self, keys, key, self.config.limit, reading, cluster_size)
    }

    // The same under the limit given.
    pub fn check_in(
        self,
        keys: &mut [u64],
        hot: &[u64],
        shadows: &[u64],
        key: u64,
        limit: Limit,
        reading: u64,
        cluster_size: usize,
    ) -> Checked
        ensures { Calls.ChecksIn self (State.tables keys.old hot.now shadows.now) key limit reading cluster_size result
            (State.tables keys.new hot.now shadows.now) }
    {
        if let Err(no) = self.ask_limits(keys, hot, shadows, limit, None, cluster_size) {
            return Answered::refused(no, self);
        }
        check_key(self, keys, key, limit, reading, cluster_size)
    }

    // Adds counts of `key` that were taken elsewhere.
    pub fn record(
        self,
        keys: &mut [u64],
        hot: &[u64],
        shadows: &[u64],
        key: u64,
        tally: Tally,
        limit: Limit,
        reading: u64,
        cluster_size: usize,
    ) -> Changed
        ensures { Calls.Records self (State.tables keys.old hot.now shadows.now) key tally limit reading cluster_size result
            (State.tables keys.new hot.now shadows.now) }
    {
        if let Err(no) = self.ask_limits(keys, hot, shadows, limit, None, cluster_size) {
            return Answered::refused(no, self);
        }
        record_key(self, keys, key, tally, limit, reading, cluster_size)
    }
}
