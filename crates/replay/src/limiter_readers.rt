// The calls that read the limiter.
use crate::answers::{Answer, Value};
use crate::calls::Name;
use crate::fields::Args;
use crate::limiter_calls::Node;
use crate::{answers, lent, limiter_calls};
use limiter::{Config, KeyRates, Limit, Limiter};
use questions::Refusal;

impl From<KeyRates> for Answer {
    fn from(rates: KeyRates) -> Self {
        answers::three(
            Value::from(rates.requests_per_sec),
            Value::from(rates.denied_per_sec),
            Value::from(rates.shadow_denied_per_sec),
        )
    }
}

impl From<Limit> for Answer {
    fn from(limit: Limit) -> Self {
        answers::two(Value::from(limit.rate), Value::from(limit.burst))
    }
}

// The settings behind the limit's rate.
fn settings_words(config: Config) -> [u64; 8] {
    [
        config.limit.burst as u64,
        float::to_bits(config.alpha),
        float::to_bits(config.floor_factor),
        config.cooldown,
        config.hot_set_size as u64,
        config.max_tracked_keys as u64,
        config.demand_time_constant,
        config.table_size as u64,
    ]
}

// The settings, those behind the limit's rate in the list.
fn of_config(answer: Result<Config, Refusal>, list: &mut [u64]) -> Answer {
    match answer {
        Err(question) => answers::one(Value::Refused(question)),
        Ok(config) => {
            for (word, setting) in list.iter_mut().zip(settings_words(config)) {
                *word = setting;
            }
            answers::one(Value::Settings(config.limit.rate))
        }
    }
}

// The answer to a call on a key.
fn answer_key(
    name: Name,
    key: u64,
    limiter: Limiter,
    keys: &[u64],
    hot: &[u64],
    shadows: &[u64],
) -> Answer {
    match name {
        Name::Rates => answers::found(limiter.key_rates(keys, hot, shadows, key)),
        Name::Quota => answers::found(limiter.quota(keys, hot, shadows, key)),
        Name::Limit => answers::found(limiter.limit(keys, hot, shadows, key)),
        Name::HotSince => answers::of(limiter.hot_since(keys, hot, shadows, key)),
        Name::IsHot => answers::of(limiter.is_hot(keys, hot, shadows, key)),
        _ => answers::of(limiter.tracked(keys, hot, shadows, key)),
    }
}

// The answer to a call on new keys or on the counts.
fn answer_whole(
    name: Name,
    args: Args,
    limiter: Limiter,
    keys: &[u64],
    hot: &[u64],
    shadows: &[u64],
) -> Answer {
    match name {
        Name::NewQuota => answers::several(limiter.new_key_quota(
            keys,
            hot,
            shadows,
            limiter_calls::limit_of(args.first, args.second),
            args.third as usize,
        )),
        Name::NewFactor => {
            answers::of(limiter.new_key_factor(keys, hot, shadows, args.first as usize))
        }
        Name::TrackedKeys => answers::of(limiter.tracked_keys(keys, hot, shadows)),
        _ => answers::of(limiter.hot_keys(keys, hot, shadows)),
    }
}

// As many words for the list as the script gives room for entries.
fn list_room(name: Name, args: Args) -> usize {
    if name == Name::HotDemand {
        lent::words_for(args.first as usize, 3)
    } else {
        lent::words_for(args.second as usize, 4)
    }
}

// The answer to a call that lists keys; they are left in the part of the list that the script gives.
fn answer_list(
    name: Name,
    args: Args,
    limiter: Limiter,
    keys: &[u64],
    hot: &[u64],
    shadows: &[u64],
    list: &mut [u64],
) -> Answer {
    let k = args.first as usize;
    let out = lent::part_mut(list, list_room(name, args));
    let keys_with_rates = match name {
        Name::HotDemand => {
            let hot_keys = limiter.hot_demand(keys, hot, shadows, out);
            return answers::one(hot_keys.map_or_else(Value::Refused, Value::HotKeys));
        }
        Name::MostDenied => limiter.most_denied(keys, hot, shadows, k, out),
        _ => limiter.most_shadow_denied(keys, hot, shadows, k, out),
    };
    answers::one(keys_with_rates.map_or_else(Value::Refused, Value::KeysWithRates))
}

// The answer to a call that reads the limiter.
pub(crate) fn answer(
    name: Name,
    args: Args,
    node: Node,
    keys: &[u64],
    hot: &[u64],
    shadows: &[u64],
    list: &mut [u64],
) -> Answer {
    let Some(limiter) = node else {
        return answers::one(Value::NoState);
    };
    match name {
        Name::Rates | Name::Quota | Name::Limit | Name::HotSince | Name::IsHot | Name::Tracked =>
            answer_key(name, args.first, limiter, keys, hot, shadows),
        Name::NewQuota | Name::NewFactor | Name::TrackedKeys | Name::HotKeys => answer_whole(
            name, args, limiter, keys, hot, shadows,
        ),
        Name::Config => of_config(limiter.config(keys, hot, shadows), list),
        _ => answer_list(name, args, limiter, keys, hot, shadows, list),
    }
}
