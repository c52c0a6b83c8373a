// The calls that change the limiter, which `new` makes.
use crate::answers::{Answer, Done, Value};
use crate::calls::Name;
use crate::fields::Args;
use crate::{answers, fields, lent};
use limiter::{Changed, Checked, Config, Limit, Limiter, Tally, Traced, TracedCheck};

// The limiter of the script, once one is made.
pub(crate) type Node = Option<Limiter>;

// Settings by nine fields.
pub(crate) fn config_of(args: Args) -> Config {
    Config {
        limit: limit_of(args.first, args.second),
        alpha: float::from_bits(args.third),
        floor_factor: float::from_bits(args.fourth),
        cooldown: args.fifth,
        hot_set_size: args.sixth as usize,
        max_tracked_keys: args.seventh as usize,
        demand_time_constant: args.eighth,
        table_size: args.ninth as usize,
    }
}

pub(crate) fn limit_of(rate: u64, burst: u64) -> Limit {
    Limit {
        rate: float::from_bits(rate),
        burst: fields::low32(burst),
    }
}

fn tally_of(args: Args) -> Tally {
    Tally {
        attempts: args.second,
        denials: args.third,
        shadow_denials: args.fourth,
    }
}

// What the limiter answers to a change that is answered with the value where it is not refused.
pub(crate) fn of_changed(changed: Changed, value: Value) -> Done<Node> {
    Done {
        answer: answers::one(changed.answer.map_or_else(Value::Refused, |_| value)),
        state: Some(changed.limiter),
    }
}

fn of_checked(checked: Checked) -> Done<Node> {
    Done {
        answer: answers::of(checked.answer),
        state: Some(checked.limiter),
    }
}

// The decision and the shadow's, parted by a slash.
impl From<Traced> for Answer {
    fn from(traced: Traced) -> Self {
        answers::three(
            Value::from(traced.decision),
            Value::Slash,
            traced.shadow.map_or(Value::Missing, Value::Decided),
        )
    }
}

fn of_traced(traced: TracedCheck) -> Done<Node> {
    Done {
        answer: answers::several(traced.answer),
        state: Some(traced.limiter),
    }
}

// A check or a record of one key.
fn checked(
    name: Name,
    args: Args,
    limiter: Limiter,
    keys: &mut [u64],
    hot: &[u64],
    shadows: &[u64],
) -> Done<Node> {
    let key = args.first;
    match name {
        Name::Check => of_checked(limiter.check(
            keys,
            hot,
            shadows,
            key,
            args.second,
            args.third as usize,
        )),
        Name::CheckIn => of_checked(limiter.check_in(
            keys,
            hot,
            shadows,
            key,
            limit_of(args.second, args.third),
            args.fourth,
            args.fifth as usize,
        )),
        _ => of_changed(
            limiter.record(
                keys,
                hot,
                shadows,
                key,
                tally_of(args),
                limit_of(args.fifth, args.sixth),
                args.seventh,
                args.eighth as usize,
            ),
            Value::Done,
        ),
    }
}

// The cap, a tick, or a call on one key.
fn change_one(
    name: Name,
    args: Args,
    limiter: Limiter,
    keys: &mut [u64],
    hot: &mut [u64],
    shadows: &mut [u64],
) -> Done<Node> {
    if name == Name::Cap {
        let cap = args.given(args.first).map(float::from_bits);
        return of_changed(limiter.set_cap(keys, hot, shadows, cap), Value::Done);
    }
    if name == Name::Tick {
        return of_changed(
            limiter.tick(keys, hot, shadows, args.first, args.second as usize),
            Value::Done,
        );
    }
    checked(name, args, limiter, keys, hot, shadows)
}

// What follows the limit of a traced check: the shadow's limit or `none`, the reading and the size
// of the cluster, to the line's end.
#[derive(Clone, Copy)]
struct Trace {
    shadow: Option<Limit>,
    reading: u64,
    cluster_size: usize,
}

fn trace_of(line: &[u8], at: usize) -> Option<Trace> {
    if let Some(args) = fields::all_of(line, at, b"euu") {
        if args.none {
            return Some(Trace {
                shadow: None,
                reading: args.second,
                cluster_size: args.third as usize,
            });
        }
    }
    let args = fields::all_of(line, at, b"diuu")?;
    Some(Trace {
        shadow: Some(limit_of(args.first, args.second)),
        reading: args.third,
        cluster_size: args.fourth as usize,
    })
}

// A check with a shadow's.
fn check_traced(
    line: &[u8],
    args: Args,
    node: Node,
    keys: &mut [u64],
    hot: &[u64],
    shadows: &mut [u64],
) -> Done<Node> {
    let Some(trace) = trace_of(line, args.next) else {
        return Done::said(Value::Unknown, node);
    };
    let Some(limiter) = node else {
        return Done::said(Value::NoState, node);
    };
    of_traced(limiter.check_in_traced(
        keys,
        hot,
        shadows,
        args.first,
        limit_of(args.second, args.third),
        trace.shadow,
        trace.reading,
        trace.cluster_size,
    ))
}

// Many checks in one call; their answers are left in the list.
fn check_each(
    line: &[u8],
    args: Args,
    node: Node,
    keys: &mut [u64],
    hot: &[u64],
    shadows: &[u64],
    list: &mut [u64],
) -> Done<Node> {
    let count = args.third as usize;
    let Some(pairs) = fields::words_of(line, args.next, lent::words_for(count, 2)) else {
        return Done::said(Value::Unknown, node);
    };
    let Some(limiter) = node else {
        return Done::said(Value::NoState, node);
    };
    let room = lent::words_for(args.second as usize, 3);
    of_changed(
        limiter.check_each(
            keys,
            hot,
            shadows,
            &pairs,
            count,
            args.first as usize,
            lent::part_mut(list, room),
        ),
        Value::Checks(count),
    )
}

// A call that changes the limiter alone.
pub(crate) fn change(
    line: &[u8],
    name: Name,
    args: Args,
    node: Node,
    keys: &mut [u64],
    hot: &mut [u64],
    shadows: &mut [u64],
    list: &mut [u64],
) -> Done<Node> {
    if name == Name::Traced {
        return check_traced(line, args, node, keys, hot, shadows);
    }
    if name == Name::Checks {
        return check_each(line, args, node, keys, hot, shadows, list);
    }
    match node {
        None => Done::said(Value::NoState, node),
        Some(limiter) => change_one(name, args, limiter, keys, hot, shadows),
    }
}
