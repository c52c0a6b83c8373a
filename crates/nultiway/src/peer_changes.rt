// Calls that make and change the peers.
ghost use Rattle.peers.specs.Peers.State.{tables};
ghost use Rattle.nultiway.specs.PeerCalls as Calls;

use crate::answers::{change_number, put_answer};
use crate::report::{ask_report, report_of};
use crate::values::{PEERS_WORDS, peers_have_room, peers_of, put_peers};
use peers::boundary::PeerId;
use peers::peer_demand::PeerDemand;

// Makes the state of peers of which none is known.
#[unsafe(no_mangle)]
pub extern "C" fn nultiway_peers_new(
    peers: &mut [u64],
    peer_table: &[u64],
    snapshot_keys: &[u64],
    contested: &[u64],
) -> u8
    ensures { Calls.New peers.old (tables peer_table.now snapshot_keys.now contested.now) result
        peers.new }
{
    if peers.len() < PEERS_WORDS {
        return 1;
    }
    put_answer(peers, PeerDemand::new(peer_table, snapshot_keys, contested))
}

// Removes a peer's record and keys.
#[unsafe(no_mangle)]
pub extern "C" fn nultiway_peers_forget(
    peers: &mut [u64],
    peer_table: &mut [u64],
    snapshot_keys: &mut [u64],
    contested: &mut [u64],
    peer: u64,
) -> u8
    ensures { Calls.Forget peers.old (tables peer_table.old snapshot_keys.old contested.old) peer result
        peers.new (tables peer_table.new snapshot_keys.new contested.new) }
{
    if peers.len() < PEERS_WORDS {
        return 1;
    }
    let p = peers_of(peers);
    let changed = p.forget(peer_table, snapshot_keys, contested, PeerId::new(peer));
    let said = changed.answer;
    let left = changed.peers;
    put_peers(peers, left);
    change_number(said)
}

// Lets a peer leave: it is removed at once where `hold` is 0, and else held for that time.
#[unsafe(no_mangle)]
pub extern "C" fn nultiway_peers_leave(
    peers: &mut [u64],
    peer_table: &mut [u64],
    snapshot_keys: &mut [u64],
    contested: &mut [u64],
    peer: u64,
    reading: u64,
    hold: u64,
) -> u8
    ensures { Calls.Leave peers.old (tables peer_table.old snapshot_keys.old contested.old) peer
        reading hold result peers.new (tables peer_table.new snapshot_keys.new contested.new) }
{
    if peers.len() < PEERS_WORDS {
        return 1;
    }
    let p = peers_of(peers);
    let id = PeerId::new(peer);
    let changed = p.leave(peer_table, snapshot_keys, contested, id, reading, hold);
    let said = changed.answer;
    let left = changed.peers;
    put_peers(peers, left);
    change_number(said)
}

// Removes what is `max_age` old, and peers that are held no longer.
#[unsafe(no_mangle)]
pub extern "C" fn nultiway_peers_expire(
    peers: &mut [u64],
    peer_table: &mut [u64],
    snapshot_keys: &mut [u64],
    contested: &mut [u64],
    reading: u64,
    max_age: u64,
) -> u8
    ensures { Calls.Expire peers.old (tables peer_table.old snapshot_keys.old contested.old) reading
        max_age result peers.new (tables peer_table.new snapshot_keys.new contested.new) }
{
    if peers.len() < PEERS_WORDS {
        return 1;
    }
    let p = peers_of(peers);
    let changed = p.expire(peer_table, snapshot_keys, contested, reading, max_age);
    let said = changed.answer;
    let left = changed.peers;
    put_peers(peers, left);
    change_number(said)
}

// Applies a report of `count` keys that came from a peer: three words for each key, the key, the
// bits of its demand (a float), and whether it is primary there. A buffer that is too
// short for them fails question 1, and words that are no key's question 2. Of more than 64 keys 65
// must be lent, and the first 64 are looked at.
#[unsafe(no_mangle)]
pub extern "C" fn nultiway_peers_apply(
    peers: &mut [u64],
    peer_table: &mut [u64],
    snapshot_keys: &mut [u64],
    contested: &mut [u64],
    from: u64,
    origin: u64,
    epoch: u32,
    round: u16,
    report: &[u64],
    count: u64,
    reading: u64,
) -> u8
    ensures { Calls.Apply peers.old (tables peer_table.old snapshot_keys.old contested.old) from
        origin epoch round report.now count reading result
        peers.new (tables peer_table.new snapshot_keys.new contested.new) }
{
    let room = peers_have_room(
        true,
        peers.len(),
        peer_table.len(),
        snapshot_keys.len(),
        contested.len(),
    );
    let no = ask_report(room, report, count);
    if no != 0 {
        return no;
    }
    let p = peers_of(peers);
    let id = PeerId::new(from);
    let sent = report_of(origin, epoch, round, report, count);
    let changed = p.apply(peer_table, snapshot_keys, contested, id, sent, reading);
    let said = changed.answer;
    let left = changed.peers;
    put_peers(peers, left);
    change_number(said)
}
