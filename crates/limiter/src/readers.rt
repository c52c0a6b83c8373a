// What a limiter tells of its settings and keys. Each call asks its questions and changes nothing.
ghost use Rattle.std.specs.Prelude.{◌≡◌, true};
ghost use Rattle.float.specs.Magnitude.{magnitude};
ghost use Rattle.limiter.specs.State.{tables, key_with, valid_key};
ghost use Rattle.limiter.specs.Ticks.{unbiased_rate};
ghost use Rattle.limiter.specs.Readers.{rates_of};
ghost use Rattle.limiter.specs.Calls as Calls;
ghost use Rattle.limiter.specs.Steps.KeySteps.{units, estimate, key_record};
ghost use Rattle.limiter.specs.Steps.CheckSteps.{Ready, keys_in};
ghost use Rattle.limiter.specs.Steps.ReaderSteps.{key_found};

use crate::key_record::{Estimator, KeyState};
use crate::{
    Config, KEY_WORDS, KeyRates, Limit, Limiter, Parameters, checks, parameters_of, ticks,
};
use demand::demand::{Demand, Times};
use gcra::Quota;
use hot::hot_set::HotSet;
use questions::Refusal;
use records::Found;

// Finds the key in the table of a limiter that passed questions 1 and 2.
pub(crate) fn find_key(limiter: Limiter, keys: &[u64], key: u64) -> Option<KeyState>
    requires { Ready limiter keys.now }
    ensures { key_found result ≡ key_with key (keys_in limiter keys.now) }
{
    match records::find(keys, KEY_WORDS, 1, limiter.keys, key, 0) {
        Found::At(place) => Some(KeyState::of_words(keys, place * KEY_WORDS)),
        _ => None,
    }
}

// An estimator's unbiased rate.
pub(crate) fn unbiased_rate(estimator: Estimator, time_constant: u64) -> f64
    requires { magnitude estimator.rate ≡ true }
    ensures { result ≡ unbiased_rate time_constant (estimate estimator) }
{
    let demand = Demand {
        current_rate: estimator.rate,
        attempts_since_tick: estimator.attempts,
        times: Some(Times {
            last_tick: estimator.last,
            since: estimator.since,
        }),
        time_constant,
    };
    demand.unbiased_rate().unwrap_or(0.0)
}

// A key's three rates.
pub(crate) fn rates_of(par: Parameters, state: KeyState) -> KeyRates
    requires { valid_key units (key_record state) ≡ true }
    ensures { result ≡ rates_of par (key_record state) }
{
    let time_constant = par.denial_time_constant;
    KeyRates {
        requests_per_sec: unbiased_rate(state.requests, time_constant),
        denied_per_sec: unbiased_rate(state.denials, time_constant),
        shadow_denied_per_sec: unbiased_rate(state.shadow_denials, time_constant),
    }
}

impl Limiter {
    // The three rates of a tracked key.
    pub fn key_rates(
        self,
        keys: &[u64],
        hot: &[u64],
        shadows: &[u64],
        key: u64,
    ) -> Result<Option<KeyRates>, Refusal>
        ensures { Calls.TellsRates self (tables keys.now hot.now shadows.now) key result }
    {
        self.ask(keys, hot, shadows)?;
        let par = parameters_of(self);
        Ok(find_key(self, keys, key).map(|state| rates_of(par, state)))
    }

    // The quota that a key is held to.
    pub fn quota(
        self,
        keys: &[u64],
        hot: &[u64],
        shadows: &[u64],
        key: u64,
    ) -> Result<Option<Quota>, Refusal>
        ensures { Calls.TellsQuota self (tables keys.now hot.now shadows.now) key result }
    {
        self.ask(keys, hot, shadows)?;
        Ok(find_key(self, keys, key).map(|state| state.gcra.quota))
    }

    // The limit that a key was last given.
    pub fn limit(
        self,
        keys: &[u64],
        hot: &[u64],
        shadows: &[u64],
        key: u64,
    ) -> Result<Option<Limit>, Refusal>
        ensures { Calls.TellsLimit self (tables keys.now hot.now shadows.now) key result }
    {
        self.ask(keys, hot, shadows)?;
        Ok(find_key(self, keys, key).map(|state| state.limit))
    }

    // A new key's quota under a limit.
    pub fn new_key_quota(
        self,
        keys: &[u64],
        hot: &[u64],
        shadows: &[u64],
        limit: Limit,
        cluster_size: usize,
    ) -> Result<Quota, Refusal>
        ensures { Calls.TellsNewKeyQuota self (tables keys.now hot.now shadows.now) limit cluster_size result }
    {
        self.ask_limits(keys, hot, shadows, limit, None, cluster_size)?;
        Ok(checks::cold_quota(self, limit, cluster_size))
    }

    // A new key's part of its limit.
    pub fn new_key_factor(
        self,
        keys: &[u64],
        hot: &[u64],
        shadows: &[u64],
        cluster_size: usize,
    ) -> Result<f64, Refusal>
        ensures { Calls.TellsNewKeyFactor self (tables keys.now hot.now shadows.now) cluster_size result }
    {
        self.ask_cluster(keys, hot, shadows, cluster_size)?;
        Ok(checks::new_key_factor(self, cluster_size))
    }

    // The settings that it was made with.
    pub fn config(self, keys: &[u64], hot: &[u64], shadows: &[u64]) -> Result<Config, Refusal>
        ensures { Calls.TellsConfig self (tables keys.now hot.now shadows.now) result }
    {
        self.ask(keys, hot, shadows)?;
        Ok(self.config)
    }

    // When a hot key came into the hot set.
    pub fn hot_since(
        self,
        keys: &[u64],
        hot: &[u64],
        shadows: &[u64],
        key: u64,
    ) -> Result<Option<u64>, Refusal>
        ensures { Calls.TellsHotSince self (tables keys.now hot.now shadows.now) key result }
    {
        self.ask(keys, hot, shadows)?;
        let set = HotSet {
            cooldown: self.config.cooldown,
            max_size: self.config.hot_set_size,
            len: self.hot,
        };
        set.hot_since(hot, key)
    }

    // Whether a key is hot here.
    pub fn is_hot(
        self,
        keys: &[u64],
        hot: &[u64],
        shadows: &[u64],
        key: u64,
    ) -> Result<bool, Refusal>
        ensures { Calls.TellsHot self (tables keys.now hot.now shadows.now) key result }
    {
        self.ask(keys, hot, shadows)?;
        Ok(ticks::is_hot(hot, self.hot, key))
    }

    // Whether a key has state here.
    pub fn tracked(
        self,
        keys: &[u64],
        hot: &[u64],
        shadows: &[u64],
        key: u64,
    ) -> Result<bool, Refusal>
        ensures { Calls.TellsTracked self (tables keys.now hot.now shadows.now) key result }
    {
        self.ask(keys, hot, shadows)?;
        Ok(ticks::is_tracked(keys, self.keys, key))
    }

    // How many keys have state here.
    pub fn tracked_keys(self, keys: &[u64], hot: &[u64], shadows: &[u64]) -> Result<usize, Refusal>
        ensures { Calls.CountsKeys self (tables keys.now hot.now shadows.now) result }
    {
        self.ask(keys, hot, shadows)?;
        Ok(self.keys)
    }

    // How many keys are hot here.
    pub fn hot_keys(self, keys: &[u64], hot: &[u64], shadows: &[u64]) -> Result<usize, Refusal>
        ensures { Calls.CountsHot self (tables keys.now hot.now shadows.now) result }
    {
        self.ask(keys, hot, shadows)?;
        Ok(self.hot)
    }
}
