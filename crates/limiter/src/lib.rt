// The limiter of a node: a quota and a meter for every tracked key. A cold key gets a part of
// the even split, a hot one the share that a tick gives it. Settings and counts are by value; the
// records of keys, hot keys and shadows stand in lent tables.
#![tactic(auto)]

mod checks;
mod key_record;
mod lists;
mod many_checks;
mod pass_one;
mod pass_two;
mod readers;
mod scan;
mod ticks;
mod traces;

ghost use Rattle.std.specs.Prelude.{◌≡◌, true, ◌&&◌, min, ◌++◌};
ghost use Rattle.demand.specs.Allocation.{is_floor_factor};
ghost use Rattle.limiter.specs.State.{parameters_of, units_of, valid_limit, valid_cap, is_alpha};
ghost use Rattle.limiter.specs.State.{are_sizes, settings_of, valid_settings, tables, lengths};
ghost use Rattle.limiter.specs.State.{room_for, have_room, is_valid};
ghost use Rattle.limiter.specs.Steps.Scan.{has_room};
ghost use Rattle.questions.specs.Questions.{first_no};
ghost use Rattle.limiter.specs.Checks as Checks;
ghost use Rattle.limiter.specs.Calls as Calls;
ghost use Rattle.questions.specs.Refusals.{asked};
ghost use Rattle.limiter.specs.Answered.{refused_with};

use demand::allocation::{is_floor_factor, is_rate};
use gcra::{Decision, Quota};
use peers::peer_demand::IMPLAUSIBLE_JUMP;
use questions::Refusal;

// A key's limit: requests a second in the whole cluster, and how many one node may allow at once.
#[derive(Clone, Copy)]
pub struct Limit {
    pub rate: f64,
    pub burst: u32,
}

// How one node enforces limits; the Rust's fields, and how many keys the table has room for.
#[derive(Clone, Copy)]
pub struct Config {
    pub limit: Limit,
    pub alpha: f64,
    pub floor_factor: f64,
    pub cooldown: u64,
    pub hot_set_size: usize,
    pub max_tracked_keys: usize,
    pub demand_time_constant: u64,
    pub table_size: usize,
}

// The rate below which a key is silent, the time constant of the estimators of requests and denials,
// by how much a demand must beat the least in a full hot set, and from how many rounds on a jump of a
// peer's is implausible.
#[derive(Clone, Copy)]
pub struct Parameters {
    pub silent_level: f64,
    pub denial_time_constant: u64,
    pub eviction_margin: f64,
    pub implausible_jump: u16,
}

// The parameters of a limiter's settings: 000's, 002's and 003's numbers.
pub(crate) fn parameters_of(limiter: Limiter) -> Parameters
    ensures { result ≡ parameters_of (settings_of limiter) }
{
    Parameters {
        silent_level: 0.001,
        denial_time_constant: 10_000_000_000,
        eviction_margin: 1.1,
        implausible_jump: IMPLAUSIBLE_JUMP,
    }
}

// The settings, and how many key, hot and shadow records are in use.
#[derive(Clone, Copy)]
pub struct Limiter {
    pub config: Config,
    pub cap: Option<f64>,
    pub last_tick: Option<u64>,
    pub keys: usize,
    pub hot: usize,
    pub shadows: usize,
}

// Counts of one key that were taken elsewhere, for `record`.
#[derive(Clone, Copy)]
pub struct Tally {
    pub attempts: u64,
    pub denials: u64,
    pub shadow_denials: u64,
}

// Three rates of a key, a second each.
#[derive(Clone, Copy)]
pub struct KeyRates {
    pub requests_per_sec: f64,
    pub denied_per_sec: f64,
    pub shadow_denied_per_sec: f64,
}

// The decision, and the shadow's.
#[derive(Clone, Copy)]
pub struct Traced {
    pub decision: Decision,
    pub shadow: Option<Decision>,
}

// The answer of a call that changes the limiter, and the limiter after it.
#[derive(Clone, Copy)]
pub struct Answered<T> {
    pub answer: Result<T, Refusal>,
    pub limiter: Limiter,
}

impl<T> Answered<T> {
    // A 'no', with the limiter as it was.
    fn refused(no: Refusal, limiter: Limiter) -> Self
        ensures { result ≡ refused_with no limiter }
    {
        Answered {
            answer: Err(no),
            limiter,
        }
    }
}

pub type Checked = Answered<Decision>;

pub type TracedCheck = Answered<Traced>;

pub type Changed = Answered<()>;

// The words of a key, of a hot entry and of a shadow in their tables.
pub const KEY_WORDS: usize = 22;

pub const HOT_WORDS: usize = 6;

pub const SHADOW_WORDS: usize = 4;

// The most keys that a hot set and a table may hold.
const MAX_HOT: usize = 64;

pub const MAX_KEYS: usize = 4096;

impl Limit {
    // Questions 3 and 4: the rate is finite and above 0, and the burst one that may be.
    fn is_valid(self) -> bool
        ensures { result ≡ valid_limit self }
    {
        is_rate(self.rate) && Quota::burst_fits(self.burst)
    }
}

// A cap is not NaN.
fn is_cap(cap: Option<f64>) -> bool
    ensures { result ≡ valid_cap cap }
{
    cap.is_none_or(|x| !x.is_nan())
}

// Question 5: alpha is in (0, 1].
fn is_alpha(x: f64) -> bool
    ensures { result ≡ is_alpha x }
{
    0.0 < x && x <= 1.0
}

// Question 1, of tables with so many words under these sizes; a size above its bound counts as that
// bound.
#[tactic(auto, using(std::proofs::lemmas::Bool::Decides::nat_tests), unfolding(crate::specs::State::within))]
pub fn have_room(
    table_size: usize,
    hot_set_size: usize,
    keys: usize,
    hot: usize,
    shadows: usize,
) -> bool
    ensures { result ≡ room_for table_size hot_set_size keys hot shadows }
{
    let size = table_size.min(MAX_KEYS);
    KEY_WORDS * size <= keys
        && HOT_WORDS * hot_set_size.min(MAX_HOT) <= hot
        && SHADOW_WORDS * size <= shadows
}

impl Config {
    // Question 6: each size is within the next.
    #[tactic(auto, using(std::proofs::lemmas::Bool::Decides::nat_tests), unfolding(crate::specs::State::are_sizes))]
    fn has_sizes(self) -> bool
        ensures { result ≡ are_sizes self }
    {
        1 <= self.hot_set_size
            && self.hot_set_size <= MAX_HOT
            && self.hot_set_size <= self.max_tracked_keys
            && self.max_tracked_keys <= self.table_size
            && self.table_size <= MAX_KEYS
    }

    // Question 1, of tables with so many words.
    fn has_room(self, keys: usize, hot: usize, shadows: usize) -> bool
        ensures { result ≡ has_room self keys hot shadows }
    {
        have_room(self.table_size, self.hot_set_size, keys, hot, shadows)
    }
}

impl Limiter {
    // Whether the settings could stand in a valid image.
    fn has_valid_settings(self) -> bool
        ensures { result ≡ valid_settings (settings_of self) }
    {
        let config = self.config;
        config.limit.is_valid() && config.has_factors() && config.has_sizes() && is_cap(self.cap)
    }

    // Question 2: whether the value and its records could stand in a valid image.
    fn is_valid(self, keys: &[u64], hot: &[u64], shadows: &[u64]) -> bool
        requires { have_room self.config (lengths (tables keys.now hot.now shadows.now)) ≡ true }
        ensures { result ≡ is_valid (units_of (settings_of self)) self (tables keys.now hot.now shadows.now) }
    {
        let config = self.config;
        self.has_valid_settings()
            && scan::are_keys(keys, self.keys, config.table_size)
            && scan::are_hot(hot, self.hot, config.hot_set_size, keys, self.keys)
            && scan::are_shadows(shadows, self.shadows, config.table_size, keys, self.keys)
    }

    // The first of questions 1 and 2 that is answered 'no', if one is.
    pub fn ask(self, keys: &[u64], hot: &[u64], shadows: &[u64]) -> Result<(), Refusal>
        ensures { Calls.Asks self (tables keys.now hot.now shadows.now) (asked result) }
    {
        if !self.config.has_room(keys.len(), hot.len(), shadows.len()) {
            return Err(Refusal::ShortBuffer);
        }
        if !self.is_valid(keys, hot, shadows) {
            return Err(Refusal::Invalid);
        }
        Ok(())
    }

    // The same, and question 7.
    fn ask_cluster(
        self,
        keys: &[u64],
        hot: &[u64],
        shadows: &[u64],
        cluster_size: usize,
    ) -> Result<(), Refusal>
        ensures { asked result ≡ first_no (Calls.state_questions self (tables keys.now hot.now shadows.now) ++ Checks.cluster_questions cluster_size) }
    {
        self.ask(keys, hot, shadows)?;
        checks::ask_cluster(cluster_size)
    }

    // The same, 3 and 4 of a limit and of a shadow's, if there is one, and 7.
    fn ask_limits(
        self,
        keys: &[u64],
        hot: &[u64],
        shadows: &[u64],
        limit: Limit,
        shadow: Option<Limit>,
        cluster_size: usize,
    ) -> Result<(), Refusal>
        ensures { asked result ≡ first_no (Calls.state_questions self (tables keys.now hot.now shadows.now)
            ++ (Checks.both_limit_questions limit shadow ++ Checks.cluster_questions cluster_size)) }
    {
        self.ask(keys, hot, shadows)?;
        checks::ask_limits(limit, shadow, cluster_size)
    }
}

// A cap of NaN is stored as none.
fn stored_cap(cap: Option<f64>) -> Option<f64>
    ensures { result ≡ Checks.stored_cap cap }
{
    cap.filter(|x| !x.is_nan())
}

impl Config {
    // The first of questions 1 and 3 to 6 that is answered 'no', if one is.
    fn ask(self, keys: &[u64], hot: &[u64], shadows: &[u64]) -> Result<(), Refusal>
        ensures { asked result ≡ first_no (Calls.new_questions self (tables keys.now hot.now shadows.now)) }
    {
        if !self.has_room(keys.len(), hot.len(), shadows.len()) {
            return Err(Refusal::ShortBuffer);
        }
        if !is_rate(self.limit.rate) {
            return Err(Refusal::Rate);
        }
        if !Quota::burst_fits(self.limit.burst) {
            return Err(Refusal::Burst);
        }
        if !self.has_factors() {
            return Err(Refusal::Factor);
        }
        if !self.has_sizes() {
            return Err(Refusal::Sizes);
        }
        Ok(())
    }

    // Question 5: alpha is in (0, 1] and the floor factor in [0, 1].
    fn has_factors(self) -> bool
        ensures { result ≡ (is_alpha self.alpha && is_floor_factor self.floor_factor) }
    {
        is_alpha(self.alpha) && is_floor_factor(self.floor_factor)
    }
}

impl Limiter {
    // A limiter with no key yet.
    pub fn new(
        config: Config,
        keys: &[u64],
        hot: &[u64],
        shadows: &[u64],
    ) -> Result<Limiter, Refusal>
        ensures { Calls.IsNew config (tables keys.now hot.now shadows.now) result }
    {
        config.ask(keys, hot, shadows)?;
        Ok(Limiter {
            config,
            cap: None,
            last_tick: None,
            keys: 0,
            hot: 0,
            shadows: 0,
        })
    }

    // Sets or lifts the cap, the greatest part of its limit that a key gets.
    pub fn set_cap(self, keys: &[u64], hot: &[u64], shadows: &[u64], cap: Option<f64>) -> Changed
        ensures { Calls.SetsCap self (tables keys.now hot.now shadows.now) cap result }
    {
        if let Err(no) = self.ask(keys, hot, shadows) {
            return Answered::refused(no, self);
        }
        Changed {
            answer: Ok(()),
            limiter: Limiter {
                cap: stored_cap(cap),
                ..self
            },
        }
    }
}
