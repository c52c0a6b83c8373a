// The calls on a lone quota, Gcra and packed word.
use crate::answers::{Answer, Value};
use crate::calls::Name;
use crate::fields::Args;
use crate::{answers, fields};
use gcra::{Checked, Gcra, Quota, QuotaSet, Stepped};

// What the Gcra answers, as the script writes it.
fn of_checked(checked: Checked) -> Answer {
    match checked.answer {
        Err(question) => answers::one(Value::Refused(question)),
        Ok(decision) => answers::two(Value::from(decision), Value::from(checked.gcra.tat)),
    }
}

fn of_set(set: QuotaSet) -> Answer {
    let Gcra { quota, tat } = set.gcra;
    match set.answer {
        Err(question) => answers::one(Value::Refused(question)),
        Ok(()) => answers::three(
            Value::from(quota.interval),
            Value::from(quota.burst),
            Value::from(tat),
        ),
    }
}

fn of_stepped(stepped: Stepped) -> Answer {
    answers::two(Value::from(stepped.decision), Value::from(stepped.tat))
}

// A quota and a Gcra by the fields that list them.
fn quota_of(interval: u64, burst: u64) -> Quota {
    Quota {
        interval,
        burst: fields::low32(burst),
    }
}

fn gcra_of(args: Args) -> Gcra {
    Gcra {
        quota: quota_of(args.first, args.second),
        tat: args.given(args.third),
    }
}

// The answer to a call on a quota.
pub(crate) fn answer_quota(name: Name, args: Args) -> Answer {
    let rate = args.first;
    let burst = fields::low32(args.second);
    let quota = quota_of(args.first, args.second);
    match name {
        Name::QuotaNew => answers::several(Quota::new(fields::low32(rate), burst)),
        Name::QuotaPerSecond => answers::several(Quota::per_second(float::from_bits(rate), burst)),
        Name::QuotaUnpack => answers::several(Quota::unpack(args.first)),
        Name::QuotaRate => answers::of(quota.rate_per_sec()),
        Name::QuotaPack => answers::of(quota.pack()),
        Name::QuotaCeiling => answers::of(quota.ceiling(args.third)),
        _ => answers::one(Value::Unknown),
    }
}

// The answer to a call on a Gcra or a packed word.
pub(crate) fn answer_gcra(name: Name, args: Args) -> Answer {
    let g = gcra_of(args);
    match name {
        Name::GcraCheck => of_checked(g.check(args.fourth)),
        Name::GcraSet => of_set(g.set_quota(quota_of(args.fourth, args.fifth), args.sixth)),
        Name::GcraDebt => answers::of(g.has_debt(args.fourth)),
        Name::GcraRetry => answers::of(g.retry_after(args.fourth)),
        Name::Step => of_stepped(gcra::step(args.first, args.second, args.third)),
        _ => answers::one(Value::Unknown),
    }
}
