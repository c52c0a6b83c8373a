// What the script's calls made, and the calls on it, which are lent as many words of the tables as the
// script says.
use crate::answers::{Answer, Done, Value};
use crate::calls::Name;
use crate::fields::Args;
use crate::hot_set::Hot;
use crate::lent::Lent;
use crate::limiter_calls::Node;
use crate::peer_calls::Peers;
use crate::tables::Tables;
use crate::{answers, hot_set, lent, limiter_calls, limiter_readers, peer_calls};
use limiter::Limiter;
use peers::peer_demand::PeerDemand;
use questions::Refusal;

// `kept` is how many bytes the image has that is kept for a load.
#[derive(Clone, Copy)]
pub(crate) struct Session {
    pub(crate) hot: Hot,
    pub(crate) node: Node,
    pub(crate) peers: Peers,
    pub(crate) lent: Lent,
    pub(crate) kept: usize,
}

// Nothing is made yet.
pub(crate) fn nothing() -> Session {
    Session {
        hot: None,
        node: None,
        peers: None,
        lent: lent::whole(),
        kept: 0,
    }
}

// A call on the lone hot set.
pub(crate) fn change_hot(name: Name, args: Args, s: Session, table: &mut [u64]) -> Done<Session> {
    let done = hot_set::change(name, args, s.hot, table);
    Done {
        answer: done.answer,
        state: Session {
            hot: done.state,
            ..s
        },
    }
}

// Peers that are made alone leave no limiter.
fn node_after(name: Name, answer: Answer, node: Node) -> Node {
    if name == Name::NewPeers && matches!(answer.first, Value::Done) {
        None
    } else {
        node
    }
}

// A call that changes the peers.
pub(crate) fn change_peers(
    line: &[u8],
    name: Name,
    args: Args,
    s: Session,
    t: &mut Tables,
) -> Done<Session> {
    let Tables {
        peers,
        snapshots,
        contested,
        ..
    } = t;
    let done = peer_calls::change(
        line,
        name,
        args,
        s.peers,
        lent::part_mut(peers, s.lent.peers),
        lent::part_mut(snapshots, s.lent.snapshots),
        lent::part_mut(contested, s.lent.contested),
    );
    Done {
        answer: done.answer,
        state: Session {
            node: node_after(name, done.answer, s.node),
            peers: done.state,
            ..s
        },
    }
}

// After a call on the limiter.
fn with_node(done: Done<Node>, s: Session) -> Done<Session> {
    Done {
        answer: done.answer,
        state: Session {
            node: done.state,
            ..s
        },
    }
}

// A call that changes the limiter alone.
pub(crate) fn change_node(
    line: &[u8],
    name: Name,
    args: Args,
    s: Session,
    t: &mut Tables,
) -> Done<Session> {
    let Tables {
        keys,
        hot_keys,
        shadows,
        list,
        ..
    } = t;
    let done = limiter_calls::change(
        line,
        name,
        args,
        s.node,
        lent::part_mut(keys, s.lent.keys),
        lent::part_mut(hot_keys, s.lent.hot),
        lent::part_mut(shadows, s.lent.shadows),
        list,
    );
    with_node(done, s)
}

// How many words of each table calls are lent from now on.
pub(crate) fn lend(args: Args, s: Session) -> Done<Session> {
    Done::said(
        Value::Done,
        Session {
            lent: lent::lent_of(args),
            ..s
        },
    )
}

// The same with so many bytes of an image kept.
pub(crate) fn keeping(s: Session, kept: usize) -> Session {
    Session { kept, ..s }
}

// Limiter and peers, where there are both.
pub(crate) fn both(s: Session) -> Option<(Limiter, PeerDemand)> {
    s.node.zip(s.peers)
}

// These two in the place of what was there.
pub(crate) fn made(limiter: Limiter, peers: PeerDemand, s: Session) -> Done<Session> {
    Done::said(
        Value::Done,
        Session {
            node: Some(limiter),
            peers: Some(peers),
            ..s
        },
    )
}

// Limiter and peers, where both are made.
fn of_new(
    limiter: Result<Limiter, Refusal>,
    peers: Result<PeerDemand, Refusal>,
    s: Session,
) -> Done<Session> {
    match (limiter, peers) {
        (Err(question), _) => Done::said(Value::Refused(question), s),
        (_, Err(question)) => Done::said(Value::Refused(question), s),
        (Ok(limiter), Ok(peers)) => made(limiter, peers, s),
    }
}

// Makes a limiter with no key and no peers beside it.
pub(crate) fn make(args: Args, s: Session, t: &Tables) -> Done<Session> {
    let lent = s.lent;
    let limiter = Limiter::new(
        limiter_calls::config_of(args),
        lent::part(&t.keys, lent.keys),
        lent::part(&t.hot_keys, lent.hot),
        lent::part(&t.shadows, lent.shadows),
    );
    let peers = PeerDemand::new(
        lent::part(&t.peers, lent.peers),
        lent::part(&t.snapshots, lent.snapshots),
        lent::part(&t.contested, lent.contested),
    );
    of_new(limiter, peers, s)
}

// A tick with the peers' shares.
pub(crate) fn tick_with_shares(args: Args, s: Session, t: &mut Tables) -> Done<Session> {
    let Tables {
        keys,
        hot_keys,
        shadows,
        peers,
        snapshots,
        contested,
        ..
    } = t;
    let Some((limiter, known)) = both(s) else {
        return Done::said(Value::NoState, s);
    };
    let lent = s.lent;
    let changed = limiter.tick_with_shares(
        lent::part_mut(keys, lent.keys),
        lent::part_mut(hot_keys, lent.hot),
        lent::part_mut(shadows, lent.shadows),
        known,
        lent::part(peers, lent.peers),
        lent::part(snapshots, lent.snapshots),
        lent::part(contested, lent.contested),
        args.first,
        args.second as usize,
    );
    with_node(limiter_calls::of_changed(changed, Value::Done), s)
}

// The answer to a call that reads the peers; what it lists is left in the list.
pub(crate) fn read_peers(
    line: &[u8],
    name: Name,
    args: Args,
    s: Session,
    t: &mut Tables,
) -> Answer {
    let Tables {
        peers,
        snapshots,
        contested,
        list,
        ..
    } = t;
    let lent = s.lent;
    peer_calls::answer(
        line,
        name,
        args,
        s.peers,
        lent::part(peers, lent.peers),
        lent::part(snapshots, lent.snapshots),
        lent::part(contested, lent.contested),
        list,
    )
}

// The same of one that reads the limiter.
pub(crate) fn read_node(name: Name, args: Args, s: Session, t: &mut Tables) -> Answer {
    let Tables {
        keys,
        hot_keys,
        shadows,
        list,
        ..
    } = t;
    let lent = s.lent;
    limiter_readers::answer(
        name,
        args,
        s.node,
        lent::part(keys, lent.keys),
        lent::part(hot_keys, lent.hot),
        lent::part(shadows, lent.shadows),
        list,
    )
}
