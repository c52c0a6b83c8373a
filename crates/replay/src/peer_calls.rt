// The calls on the peers' state, which the script's calls make and change, and on rounds.
use crate::answers::{Answer, Done, Value};
use crate::calls::Name;
use crate::fields::{Args, Fields};
use crate::{answers, fields, lent};
use peers::boundary::PeerId;
use peers::peer_demand::{DemandReport, Heard, KeyDemand, PeerDemand, PeersChanged};
use questions::Refusal;

// The peers' state of the script, once it is made.
pub(crate) type Peers = Option<PeerDemand>;

// What a call on rounds answers.
pub(crate) fn rounds_of(name: Name, args: Args) -> Value {
    match name {
        Name::Newer => Value::from(peers::peer_demand::round_is_newer(
            fields::low16(args.first),
            fields::low16(args.second),
        )),
        Name::Stale => { Value::of(peers::peer_demand::stale_after_rounds(args.first as usize)) }
        _ => Value::Unknown,
    }
}

fn of_change(changed: PeersChanged) -> Done<Peers> {
    Done::said(Value::of(changed.answer), Some(changed.peers))
}

// What was heard: the demand, whether it is primary, the round and when.
impl From<Heard> for Answer {
    fn from(heard: Heard) -> Self {
        Answer {
            first: Value::Float32(heard.demand),
            second: Value::from(heard.primary),
            third: Value::Whole(heard.round as u64),
            fourth: Value::from(heard.heard_at),
        }
    }
}

// The answer to a call that reads the peers for one key or none.
fn answer_one(
    name: Name,
    args: Args,
    value: PeerDemand,
    peers: &[u64],
    keys: &[u64],
    contested: &[u64],
) -> Answer {
    let key = args.first;
    match name {
        Name::Get => {
            answers::found(value.get(peers, keys, contested, PeerId::new(key), args.second))
        }
        Name::Total => answers::of(value.total(peers, keys, contested, key)),
        Name::Elsewhere => answers::of(value.hot_elsewhere(peers, keys, contested, key)),
        Name::PeersLen => answers::of(value.len(peers, keys, contested)),
        Name::PeersEmpty => answers::of(value.is_empty(peers, keys, contested)),
        _ => answers::one(Value::Unknown),
    }
}

fn of_each(answer: Result<(), Refusal>, value: Value) -> Answer {
    answers::one(answer.map_or_else(Value::Refused, |_| value))
}

// The totals of so many keys that are wanted; their bits are left in the list. One function for
// this and the next would be handed the call, the word and the value, which is all that they do.
fn answer_totals(
    args: Args,
    wanted: &[u64],
    value: PeerDemand,
    peers: &[u64],
    keys: &[u64],
    contested: &[u64],
    list: &mut [u64],
) -> Answer {
    let count = args.second as usize;
    let mut totals = [0.0; 256];
    let room = lent::part_mut(&mut totals, args.first as usize);
    let answer = value.total_of_each(peers, keys, contested, wanted, 1, count, room);
    for (word, total) in list.iter_mut().zip(&totals) {
        *word = float::to_bits(*total);
    }
    of_each(answer, Value::Floats(count))
}

// Whether each of so many keys that are wanted is hot elsewhere, in the list.
fn answer_elsewheres(
    args: Args,
    wanted: &[u64],
    value: PeerDemand,
    peers: &[u64],
    keys: &[u64],
    contested: &[u64],
    list: &mut [u64],
) -> Answer {
    let count = args.second as usize;
    let mut flags = [false; 256];
    let room = lent::part_mut(&mut flags, args.first as usize);
    let answer = value.hot_elsewhere_of_each(peers, keys, contested, wanted, 1, count, room);
    for (word, yes) in list.iter_mut().zip(&flags) {
        *word = *yes as u64;
    }
    of_each(answer, Value::Flags(count))
}

// The answer to a call that reads the peers for many keys; what it tells is left in the list.
fn answer_each(
    line: &[u8],
    name: Name,
    args: Args,
    p: Peers,
    peers: &[u64],
    keys: &[u64],
    contested: &[u64],
    list: &mut [u64],
) -> Answer {
    let Some(wanted) = fields::words_of(line, args.next, args.second as usize) else {
        return answers::one(Value::Unknown);
    };
    let Some(value) = p else {
        return answers::one(Value::NoState);
    };
    if name == Name::Totals {
        return answer_totals(args, &wanted, value, peers, keys, contested, list);
    }
    answer_elsewheres(args, &wanted, value, peers, keys, contested, list)
}

// The answer to a call that reads the peers.
pub(crate) fn answer(
    line: &[u8],
    name: Name,
    args: Args,
    p: Peers,
    peers: &[u64],
    keys: &[u64],
    contested: &[u64],
    list: &mut [u64],
) -> Answer {
    if matches!(name, Name::Totals | Name::Elsewheres) {
        return answer_each(line, name, args, p, peers, keys, contested, list);
    }
    match p {
        None => answers::one(Value::NoState),
        Some(value) => answer_one(name, args, value, peers, keys, contested),
    }
}

// A call that changes the peers, but for a report.
fn changed(
    name: Name,
    args: Args,
    value: PeerDemand,
    peers: &mut [u64],
    keys: &mut [u64],
    contested: &mut [u64],
) -> PeersChanged {
    let peer = PeerId::new(args.first);
    match name {
        Name::Forget => value.forget(peers, keys, contested, peer),
        Name::Leave => value.leave(peers, keys, contested, peer, args.second, args.third),
        _ => value.expire(peers, keys, contested, args.first, args.second),
    }
}

// The key that is listed next, if its fields are good.
fn key_of(rest: &mut Fields) -> Option<KeyDemand> {
    let key_hash = rest.number(b'u')?;
    let demand = rest.number(b'f')?;
    let primary = rest.number(b'b')?;
    Some(KeyDemand {
        key_hash,
        demand: float::f32_from_bits(fields::low32(demand)),
        primary: primary == 1,
    })
}

// The so many keys that are listed from there to the line's end, of which a report holds the first
// 64: it is refused where there are more.
fn keys_of(line: &[u8], from: usize, count: usize) -> Option<[KeyDemand; 64]> {
    let none = KeyDemand {
        key_hash: 0,
        demand: 0.0,
        primary: false,
    };
    let mut keys = [none; 64];
    let mut rest = Fields::new(line, from);
    for i in 0..count {
        let key = key_of(&mut rest)?;
        if i < 64 {
            keys[i] = key;
        }
    }
    if rest.is_over() { Some(keys) } else { None }
}

// The report of a line, if it is one.
fn report_of(line: &[u8], args: Args) -> Option<DemandReport> {
    let count = args.sixth as usize;
    Some(DemandReport {
        origin: args.third,
        epoch: fields::low32(args.fourth),
        round: fields::low16(args.fifth),
        count,
        keys: keys_of(line, args.next, count)?,
    })
}

// A report, which is no call where its keys are not good.
fn report(
    line: &[u8],
    args: Args,
    p: Peers,
    peers: &mut [u64],
    keys: &mut [u64],
    contested: &mut [u64],
) -> Done<Peers> {
    let Some(report) = report_of(line, args) else {
        return Done::said(Value::Unknown, p);
    };
    let Some(value) = p else {
        return Done::said(Value::NoState, p);
    };
    let from = PeerId::new(args.first);
    of_change(value.apply(peers, keys, contested, from, report, args.second))
}

// A call that makes or changes the peers' state.
pub(crate) fn change(
    line: &[u8],
    name: Name,
    args: Args,
    p: Peers,
    peers: &mut [u64],
    keys: &mut [u64],
    contested: &mut [u64],
) -> Done<Peers> {
    if name == Name::NewPeers {
        return answers::made(PeerDemand::new(peers, keys, contested), p);
    }
    if name == Name::Report {
        return report(line, args, p, peers, keys, contested);
    }
    match p {
        None => Done::said(Value::NoState, p),
        Some(value) => of_change(changed(name, args, value, peers, keys, contested)),
    }
}
