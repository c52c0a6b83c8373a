// A tick: its walks over the tables of a limiter that is valid, and the two calls that join them.
// The words are the caller's, and the limiter has their counts, as C callers keep them: so the two
// go side by side, here and in the two passes.
ghost use Rattle.std.specs.Prelude.{◌≡◌, true, cond, ◌&&◌, ◌||◌, [], ◌++◌, map, ◌+◌, ◌-◌, ◌*◌, ◌≤◌, ◌<◌, ltb, eqb, length, take, drop, get_or};
ghost use Rattle.std.specs.Float.{binary64};
ghost use Rattle.std.specs.Float.Ieee.{of_bits, to_bits};
ghost use Rattle.float.specs.Magnitude.{magnitude};
ghost use Rattle.records.specs.Words.{paste};
ghost use Rattle.records.specs.Records.{records, table};
ghost use Rattle.demand.specs.Estimators.Estimator.{alpha, folded_by};
ghost use Rattle.hot.specs.HotSet.Set.{is_hot, entries};
ghost use Rattle.questions.specs.Lists.{only};
ghost use Rattle.questions.specs.Questions.{first_no, passes};
ghost use Rattle.peers.specs.Peers.State as PeerState;
ghost use Rattle.hot.specs.HotSet.Steps.{EntriesReady};
ghost use Rattle.records.specs.Typed.{Tabled};
ghost use Rattle.limiter.specs.State as State;
ghost use Rattle.limiter.specs.State.{is_tracked, estimate_words, estimate_of, units_in, key_of};
ghost use Rattle.limiter.specs.Checks as Checks;
ghost use Rattle.limiter.specs.Calls as Calls;
ghost use Rattle.limiter.specs.Ticks.{folded, tick_with_shares};
ghost use Rattle.limiter.specs.Steps.TickSteps.{flagged, below, Cut, staying, top, rate_place_of};
ghost use Rattle.limiter.specs.Steps.TickSteps.{key_records, key_rank, stays_under, LentKeys};
ghost use Rattle.limiter.specs.Steps.TickSteps.{folded_row, LentKey};
ghost use Rattle.limiter.specs.Steps.TickSteps.{shadow_key};
ghost use Rattle.limiter.specs.Steps.PassTwoSteps.{terms_of, requoted, Finishing, Finished, Ticked};
ghost use Rattle.limiter.specs.Steps.KeySteps.{units};
ghost use Rattle.questions.specs.Refusals.{asked};

use crate::pass_two::RateTerms;
use crate::{
    Changed, HOT_WORDS, KEY_WORDS, Limiter, MAX_HOT, MAX_KEYS, SHADOW_WORDS, checks, pass_one,
    pass_two,
};
use demand::demand::{Demand, Times};
use peers::peer_demand::PeerDemand;
use questions::Refusal;
use records::Found;

// Keeps the records whose flag is set, in their order, at the front of their table; tells how many.
pub(crate) fn keep_flagged(t: &mut [u64], w: usize, n: usize, stays: &[bool]) -> usize
    requires { (1 ≤ w) × (n * w ≤ length t.old) × (n ≤ length stays.now) }
    ensures { Tabled result (flagged stays.now (records w n t.old)) t.old t.new }
{
    let mut kept = 0;
    for i in 0..n {
        if stays[i] {
            let at = i * w;
            records::copy_words(t, at, at + w, kept * w);
            kept += 1;
        }
    }
    kept
}

// How many of the n ranks are below the limit.
fn count_below(ranks: &[u64], n: usize, limit: u64) -> usize
    requires { n ≤ length ranks.now }
    ensures { result ≡ below limit (take n ranks.now) }
{
    ranks[..n].iter().filter(|rank| **rank < limit).count()
}

// The greatest limit that at most `most` of the n ranks are below. The loop halves a range of words:
// a search of the library would want a list of them.
fn cut(ranks: &[u64], n: usize, most: usize) -> u64
    requires { n ≤ length ranks.now }
    ensures { Cut top most (take n ranks.now) result }
{
    let mut low = 0;
    let mut high = u64::MAX;
    while low + 1 < high {
        let middle = low.midpoint(high);
        if count_below(ranks, n, middle) <= most {
            low = middle;
        } else {
            high = middle;
        }
    }
    low
}

// Whether a key of this rank goes, with room for so many at the limit.
fn goes(rank: u64, limit: u64, room: usize) -> bool
    ensures { result ≡ (ltb rank limit || (eqb rank limit && ltb 0 room)) }
{
    rank < limit || (rank == limit && 0 < room)
}

// The room that it leaves.
fn room_after(rank: u64, limit: u64, room: usize) -> usize
    ensures { result ≡ cond (eqb rank limit) (room - 1) room }
{
    if rank == limit {
        room.saturating_sub(1)
    } else {
        room
    }
}

// Sets the flag of each key that stays.
fn mark_staying(ranks: &[u64], n: usize, limit: u64, room: usize, stays: &mut [bool])
    requires { (n ≤ length ranks.now) × (n ≤ length stays.old) }
    ensures { take n stays.new ≡ staying limit room (take n ranks.now) }
{
    let mut left = room;
    for i in 0..n {
        stays[i] = !goes(ranks[i], limit, left);
        left = room_after(ranks[i], limit, left);
    }
}

// Whether the key is hot.
pub(crate) fn is_hot(hot: &[u64], h: usize, key: u64) -> bool
    requires { EntriesReady h hot.now }
    ensures { result ≡ is_hot key (entries h hot.now) }
{
    matches!(records::find(hot, HOT_WORDS, 1, h, key, 0), Found::At(_))
}

// The place of an estimator's unbiased rate in totalOrder.
fn rate_place(rate: u64, last_tick: u64, since: u64, time_constant: u64) -> u64
    requires { magnitude (of_bits binary64 rate) ≡ true }
    ensures { result ≡ rate_place_of time_constant rate last_tick since }
{
    let demand = Demand {
        current_rate: float::from_bits(rate),
        attempts_since_tick: 0,
        times: Some(Times { last_tick, since }),
        time_constant,
    };
    match demand.unbiased_rate() {
        Ok(unbiased) => float::total_place(float::to_bits(unbiased)),
        Err(_) => u64::MAX,
    }
}

// The rank of key i in the order in which keys go: a hot one has none.
fn key_rank(keys: &[u64], n: usize, i: usize, hot: &[u64], h: usize, time_constant: u64) -> u64
    requires { LentKeys units n keys.now × EntriesReady h hot.now × (i < n) }
    ensures { result ≡ key_rank time_constant (entries h hot.now) (key_of units (get_or (records 22 n keys.now) i [])) }
{
    let at = i * KEY_WORDS;
    if is_hot(hot, h, keys[at]) {
        return u64::MAX;
    }
    rate_place(keys[at + 3], keys[at + 5], keys[at + 6], time_constant)
}

// Works out the rank of each key once.
fn rank_keys(keys: &[u64], n: usize, hot: &[u64], h: usize, time_constant: u64, ranks: &mut [u64])
    requires { LentKeys units n keys.now × EntriesReady h hot.now × (n ≤ length ranks.old) }
    ensures { take n ranks.new ≡
        map (λ x. key_rank time_constant (entries h hot.now) (key_of units x))
        (records 22 n keys.now) }
{
    for i in 0..n {
        ranks[i] = key_rank(keys, n, i, hot, h, time_constant);
    }
}

// Where there are more keys than `most`, takes out as many that are not hot, lowest unbiased rate
// first, ties to the smaller key; tells how many are left.
pub(crate) fn enforce_cap(
    keys: &mut [u64],
    n: usize,
    hot: &[u64],
    h: usize,
    most: usize,
    time_constant: u64,
) -> usize
    requires { LentKeys units n keys.old × EntriesReady h hot.now × (n ≤ 4096) }
    ensures { Tabled result
        (only
        (λ x. stays_under time_constant most (entries h hot.now)
        (key_records units n keys.old) (key_of units x)) (records 22 n keys.old))
        keys.old keys.new }
{
    if n <= most {
        return n;
    }
    let excess = n - most;
    let mut ranks = [0; MAX_KEYS];
    rank_keys(keys, n, hot, h, time_constant, &mut ranks);
    let limit = cut(&ranks, n, excess);
    let room = excess - count_below(&ranks, n, limit);
    let mut stays = [false; MAX_KEYS];
    mark_staying(&ranks, n, limit, room, &mut stays);
    keep_flagged(keys, KEY_WORDS, n, &stays)
}

// How far a fold moves a rate, with the elapsed time and the time constant that it is for.
#[derive(Clone, Copy)]
struct Alpha {
    elapsed: u64,
    time_constant: u64,
    value: f64,
    ghost worked_out: { value ≡ alpha elapsed time_constant },
}

impl Alpha {
    // The alpha of a time and a time constant.
    fn of(elapsed: u64, time_constant: u64) -> Alpha
        ensures { (result.elapsed ≡ elapsed) × (result.time_constant ≡ time_constant) }
    {
        Alpha {
            elapsed,
            time_constant,
            value: demand::demand::alpha(elapsed, time_constant),
        }
    }

    // The alpha of another time: worked out anew only where it is another.
    fn after(self, elapsed: u64) -> Alpha
        ensures { (result.elapsed ≡ elapsed) × (result.time_constant ≡ self.time_constant) }
    {
        if self.elapsed == elapsed {
            return self;
        }
        Alpha::of(elapsed, self.time_constant)
    }
}

// The rate after a fold, as its bits.
fn folded_by(alpha: f64, rate: u64, attempts: u64, elapsed: u64) -> u64
    ensures { result ≡ to_bits binary64 (folded_by alpha (of_bits binary64 rate) attempts elapsed) }
{
    let folded = demand::demand::folded_by(alpha, float::from_bits(rate), attempts, elapsed);
    float::to_bits(folded)
}

// Folds the estimator at `at`.
fn fold_estimate(t: &mut [u64], at: usize, reading: u64, known: Alpha) -> Alpha
    requires { (at + 4 ≤ length t.old) × (magnitude (of_bits binary64 (get_or t.old at 0)) ≡ true) }
    ensures time_constant_kept { result.time_constant ≡ known.time_constant }
    ensures t_after { t.new ≡
        paste at
        (estimate_words (folded known.time_constant reading (estimate_of (drop at t.old))))
        t.old }
{
    let elapsed = reading.saturating_sub(t[at + 2]);
    if elapsed == 0 {
        return known;
    }
    let next = known.after(elapsed);
    t[at] = folded_by(next.value, t[at], t[at + 1], elapsed);
    t[at + 1] = 0;
    t[at + 2] = reading;
    next
}

// The alphas of the two time constants of a key's estimators.
#[derive(Clone, Copy)]
struct Alphas {
    demand: Alpha,
    denials: Alpha,
}

// Folds the four estimators in the words of one key.
fn fold_key(r: &mut [u64], reading: u64, known: Alphas) -> Alphas
    requires { LentKey units r.old }
    ensures demand_kept { result.demand.time_constant ≡ known.demand.time_constant }
    ensures denials_kept { result.denials.time_constant ≡ known.denials.time_constant }
    ensures r_after { r.new ≡
        folded_row units known.demand.time_constant known.denials.time_constant reading r.old }
{
    let demand = fold_estimate(r, 3, reading, known.demand);
    let requests = fold_estimate(r, 7, reading, known.denials);
    let denials = fold_estimate(r, 11, reading, requests);
    let shadow_denials = fold_estimate(r, 15, reading, denials);
    Alphas {
        demand,
        denials: shadow_denials,
    }
}

// Folds the estimators of all keys in place, with the time constant of demand and that of requests
// and denials.
pub(crate) fn fold_keys(
    keys: &mut [u64],
    n: usize,
    reading: u64,
    time_constant: u64,
    denial_time_constant: u64,
)
    requires { LentKeys units n keys.old }
    ensures { keys.new ≡
        table (map (folded_row units time_constant denial_time_constant reading) (records 22 n keys.old))
        keys.old }
{
    let mut known = Alphas {
        demand: Alpha::of(0, time_constant),
        denials: Alpha::of(0, denial_time_constant),
    };
    for i in 0..n {
        let at = i * KEY_WORDS;
        known = fold_key(&mut keys[at..at + KEY_WORDS], reading, known);
    }
}

// Whether the key has state here.
pub(crate) fn is_tracked(keys: &[u64], n: usize, key: u64) -> bool
    requires { LentKeys units n keys.now }
    ensures { result ≡ is_tracked (key_records units n keys.now) key }
{
    matches!(records::find(keys, KEY_WORDS, 1, n, key, 0), Found::At(_))
}

// Sets the flag of each shadow whose key has state.
fn mark_tracked(shadows: &[u64], m: usize, keys: &[u64], n: usize, stays: &mut [bool])
    requires { (m * 4 ≤ length shadows.now) × LentKeys units n keys.now × (m ≤ length stays.old) }
    ensures { take m stays.new ≡
        map (λ x. is_tracked (key_records units n keys.now) (shadow_key units x)) (records 4 m shadows.now) }
{
    for i in 0..m {
        stays[i] = is_tracked(keys, n, shadows[i * SHADOW_WORDS]);
    }
}

// Keeps the shadows of keys that have state; tells how many.
pub(crate) fn keep_tracked(shadows: &mut [u64], m: usize, keys: &[u64], n: usize) -> usize
    requires { (m * 4 ≤ length shadows.old) × LentKeys units n keys.now × (m ≤ 4096) }
    ensures { Tabled result
        (only (λ x. is_tracked (key_records units n keys.now) (shadow_key units x)) (records 4 m shadows.old))
        shadows.old shadows.new }
{
    let mut stays = [false; MAX_KEYS];
    mark_tracked(shadows, m, keys, n, &mut stays);
    keep_flagged(shadows, SHADOW_WORDS, m, &stays)
}

// Pass two, the cap on keys, and the shadows of the keys that are left, of a limiter whose pass one
// left n keys and h hot entries.
fn finish_tick(
    limiter: Limiter,
    keys: &mut [u64],
    n: usize,
    hot: &[u64],
    h: usize,
    shadows: &mut [u64],
    elsewhere: &[bool],
    totals: &[f64],
    even: bool,
    reading: u64,
    cluster_size: usize,
) -> Limiter
    requires { Finishing limiter keys.old n hot.now h shadows.old elsewhere.now totals.now cluster_size }
    ensures { Finished limiter keys.old (entries h hot.now) h shadows.old
        (requoted (units_in limiter) (terms_of limiter even cluster_size) (entries h hot.now) totals.now reading
        elsewhere.now (key_records (units_in limiter) n keys.old)) reading result keys.new shadows.new }
{
    let terms = RateTerms::of(limiter, even, cluster_size);
    pass_two::set_quotas(keys, n, hot, h, elsewhere, totals, terms, reading);
    let left = enforce_cap(
        keys,
        n,
        hot,
        h,
        limiter.config.max_tracked_keys,
        limiter.config.demand_time_constant,
    );
    let tracked = keep_tracked(shadows, limiter.shadows, keys, left);
    Limiter {
        last_tick: Some(reading),
        keys: left,
        hot: h,
        shadows: tracked,
        ..limiter
    }
}

impl Limiter {
    // The work of a period: estimators, hot set, quotas, and the keys that go. A hot key gets an even
    // part of its limit.
    pub fn tick(
        self,
        keys: &mut [u64],
        hot: &mut [u64],
        shadows: &mut [u64],
        reading: u64,
        cluster_size: usize,
    ) -> Changed
        ensures { Calls.Ticks self (State.tables keys.old hot.old shadows.old) reading cluster_size result (State.tables keys.new hot.new shadows.new) }
    {
        if let Err(no) = self.ask_cluster(keys, hot, shadows, cluster_size) {
            return Changed {
                answer: Err(no),
                limiter: self,
            };
        }
        let mut elsewhere = [false; MAX_KEYS];
        let passed = pass_one::pass_one(self, keys, hot, &mut elsewhere, reading, cluster_size);
        let totals = [0.0; MAX_HOT];
        let limiter = finish_tick(
            self,
            keys,
            passed.keys,
            hot,
            passed.hot,
            shadows,
            &elsewhere,
            &totals,
            true,
            reading,
            cluster_size,
        );
        Changed {
            answer: Ok(()),
            limiter,
        }
    }

    // The first of questions 1 and 2, each of the limiter and the peers, and 7 that is answered 'no',
    // if one is.
    fn ask_both(
        self,
        keys: &[u64],
        hot: &[u64],
        shadows: &[u64],
        peers: PeerDemand,
        peer_table: &[u64],
        snapshot_keys: &[u64],
        contested: &[u64],
        cluster_size: usize,
    ) -> Result<(), Refusal>
        ensures { asked result ≡ first_no (Calls.both_questions self (State.tables keys.now hot.now shadows.now) peers
            (PeerState.tables peer_table.now snapshot_keys.now contested.now) ++ Checks.cluster_questions cluster_size) }
    {
        let here = self.ask(keys, hot, shadows);
        let there = peers.ask(peer_table, snapshot_keys, contested);
        Refusal::first(here, there)?;
        checks::ask_cluster(cluster_size)
    }

    // A tick with the peers' state, past its questions.
    fn tick_asked(
        self,
        keys: &mut [u64],
        hot: &mut [u64],
        shadows: &mut [u64],
        peers: PeerDemand,
        peer_table: &[u64],
        snapshot_keys: &[u64],
        contested: &[u64],
        reading: u64,
        cluster_size: usize,
    ) -> Limiter
        requires { passes (Calls.both_questions self (State.tables keys.old hot.old shadows.old) peers
            (PeerState.tables peer_table.now snapshot_keys.now contested.now) ++ Checks.cluster_questions cluster_size) ≡ true }
        ensures { Ticked (tick_with_shares (State.parameters_of (State.settings_of self)) (State.units_of (State.settings_of self))
            (PeerState.state_of peers (PeerState.tables peer_table.now snapshot_keys.now contested.now)) reading cluster_size
            (Calls.here self (State.tables keys.old hot.old shadows.old))) (State.tables keys.old hot.old shadows.old) result (State.tables keys.new hot.new shadows.new) }
    {
        let mut elsewhere = [false; MAX_KEYS];
        let _ = peers.hot_elsewhere_of_each(
            peer_table,
            snapshot_keys,
            contested,
            keys,
            KEY_WORDS,
            self.keys,
            &mut elsewhere,
        );
        let passed = pass_one::pass_one(self, keys, hot, &mut elsewhere, reading, cluster_size);
        let mut totals = [0.0; MAX_HOT];
        let _ = peers.total_of_each(
            peer_table,
            snapshot_keys,
            contested,
            hot,
            HOT_WORDS,
            passed.hot,
            &mut totals,
        );
        finish_tick(
            self,
            keys,
            passed.keys,
            hot,
            passed.hot,
            shadows,
            &elsewhere,
            &totals,
            false,
            reading,
            cluster_size,
        )
    }

    // The same with the peers' state: it decides a hot key's share, and which keys are hot elsewhere.
    pub fn tick_with_shares(
        self,
        keys: &mut [u64],
        hot: &mut [u64],
        shadows: &mut [u64],
        peers: PeerDemand,
        peer_table: &[u64],
        snapshot_keys: &[u64],
        contested: &[u64],
        reading: u64,
        cluster_size: usize,
    ) -> Changed
        ensures { Calls.TicksWithShares self (State.tables keys.old hot.old shadows.old) peers
            (PeerState.tables peer_table.now snapshot_keys.now contested.now) reading cluster_size result
            (State.tables keys.new hot.new shadows.new) }
    {
        if let Err(no) = self.ask_both(
            keys,
            hot,
            shadows,
            peers,
            peer_table,
            snapshot_keys,
            contested,
            cluster_size,
        ) {
            return Changed {
                answer: Err(no),
                limiter: self,
            };
        }
        let limiter = self.tick_asked(
            keys,
            hot,
            shadows,
            peers,
            peer_table,
            snapshot_keys,
            contested,
            reading,
            cluster_size,
        );
        Changed {
            answer: Ok(()),
            limiter,
        }
    }
}
