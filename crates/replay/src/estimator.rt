// The calls on a lone estimator, the decay weight and a share.
use crate::answers;
use crate::answers::{Answer, Value};
use crate::calls::Name;
use crate::fields::Args;
use demand::allocation::View;
use demand::decay::decay_weight;
use demand::demand::{Demand, Times};

fn times_of(args: Args) -> Option<Times> {
    let last_tick = args.given(args.third)?;
    let since = args.given(args.fourth)?;
    Some(Times { last_tick, since })
}

fn estimator_of(args: Args) -> Demand {
    Demand {
        current_rate: float::from_bits(args.first),
        attempts_since_tick: args.second,
        times: times_of(args),
        time_constant: args.fifth,
    }
}

fn view_of(args: Args) -> View {
    View {
        limit: float::from_bits(args.first),
        cluster_size: args.second as usize,
        floor_factor: float::from_bits(args.third),
        own: float::from_bits(args.fourth),
        others: float::from_bits(args.fifth),
    }
}

// An estimator's answer: the rate, the attempts and the two times.
impl From<Demand> for Answer {
    fn from(d: Demand) -> Self {
        let (last_tick, since) = match d.times {
            None => (Value::Missing, Value::Missing),
            Some(times) => (Value::from(times.last_tick), Value::from(times.since)),
        };
        Answer {
            first: Value::from(d.current_rate),
            second: Value::from(d.attempts_since_tick),
            third: last_tick,
            fourth: since,
        }
    }
}

// The answer to a call on an estimator, a weight or a share.
pub(crate) fn answer(name: Name, args: Args) -> Answer {
    let d = estimator_of(args);
    match name {
        Name::DemandTick => answers::several(d.tick(args.sixth)),
        Name::DemandRecord => answers::several(d.record_attempts(args.sixth)),
        Name::DemandUnbiased => answers::of(d.unbiased_rate()),
        Name::Decay => answers::one(Value::Whole(decay_weight(args.first, args.second))),
        Name::Share => answers::of(demand::allocation::share(view_of(args))),
        _ => answers::one(Value::Unknown),
    }
}
