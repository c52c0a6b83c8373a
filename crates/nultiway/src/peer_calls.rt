// What the peers tell.
ghost use Rattle.peers.specs.Peers.State.{tables};
ghost use Rattle.nultiway.specs.PeerCalls as Calls;

use crate::answers::{change_number, put_answer};
use crate::values::{PEERS_WORDS, are_long, peers_of};
use peers::boundary::PeerId;

// Asks questions 1 and 2 of the peers and their tables.
#[unsafe(no_mangle)]
pub extern "C" fn nultiway_peers_ask(
    peers: &[u64],
    peer_table: &[u64],
    snapshot_keys: &[u64],
    contested: &[u64],
) -> u8
    ensures { Calls.Ask peers.now (tables peer_table.now snapshot_keys.now contested.now) result }
{
    if peers.len() < PEERS_WORDS {
        return 1;
    }
    change_number(peers_of(peers).ask(peer_table, snapshot_keys, contested))
}

// Tells whether a peer said something of a key, the bits of the demand (a float), whether the key
// is primary there, the round, and when it was heard.
#[unsafe(no_mangle)]
pub extern "C" fn nultiway_peers_get(
    peers: &[u64],
    peer_table: &[u64],
    snapshot_keys: &[u64],
    contested: &[u64],
    peer: u64,
    key: u64,
    answer: &mut [u64],
) -> u8
    ensures { Calls.Get peers.now (tables peer_table.now snapshot_keys.now contested.now) peer key
        answer.old result answer.new }
{
    if !are_long(peers.len(), PEERS_WORDS, answer.len(), 5) {
        return 1;
    }
    let p = peers_of(peers);
    let id = PeerId::new(peer);
    put_answer(answer, p.get(peer_table, snapshot_keys, contested, id, key))
}

// Tells the peers' demands for a key, added up: the bits of a double.
#[unsafe(no_mangle)]
pub extern "C" fn nultiway_peers_total(
    peers: &[u64],
    peer_table: &[u64],
    snapshot_keys: &[u64],
    contested: &[u64],
    key: u64,
    answer: &mut [u64],
) -> u8
    ensures { Calls.Total peers.now (tables peer_table.now snapshot_keys.now contested.now) key
        answer.old result answer.new }
{
    if !are_long(peers.len(), PEERS_WORDS, answer.len(), 1) {
        return 1;
    }
    let p = peers_of(peers);
    put_answer(answer, p.total(peer_table, snapshot_keys, contested, key))
}

// Tells whether a key is primary at a peer.
#[unsafe(no_mangle)]
pub extern "C" fn nultiway_peers_hot_elsewhere(
    peers: &[u64],
    peer_table: &[u64],
    snapshot_keys: &[u64],
    contested: &[u64],
    key: u64,
    answer: &mut [u64],
) -> u8
    ensures { Calls.HotElsewhere peers.now (tables peer_table.now snapshot_keys.now contested.now) key
        answer.old result answer.new }
{
    if !are_long(peers.len(), PEERS_WORDS, answer.len(), 1) {
        return 1;
    }
    let p = peers_of(peers);
    put_answer(
        answer,
        p.hot_elsewhere(peer_table, snapshot_keys, contested, key),
    )
}

// Tells the number of keys of all peers.
#[unsafe(no_mangle)]
pub extern "C" fn nultiway_peers_len(
    peers: &[u64],
    peer_table: &[u64],
    snapshot_keys: &[u64],
    contested: &[u64],
    answer: &mut [u64],
) -> u8
    ensures { Calls.Len peers.now (tables peer_table.now snapshot_keys.now contested.now)
        answer.old result answer.new }
{
    if !are_long(peers.len(), PEERS_WORDS, answer.len(), 1) {
        return 1;
    }
    let p = peers_of(peers);
    put_answer(answer, p.len(peer_table, snapshot_keys, contested))
}

// Tells whether there is no key of any peer.
#[unsafe(no_mangle)]
pub extern "C" fn nultiway_peers_is_empty(
    peers: &[u64],
    peer_table: &[u64],
    snapshot_keys: &[u64],
    contested: &[u64],
    answer: &mut [u64],
) -> u8
    ensures { Calls.IsEmpty peers.now (tables peer_table.now snapshot_keys.now contested.now)
        answer.old result answer.new }
{
    if !are_long(peers.len(), PEERS_WORDS, answer.len(), 1) {
        return 1;
    }
    let p = peers_of(peers);
    put_answer(answer, p.is_empty(peer_table, snapshot_keys, contested))
}

// Tells the peers' demands, added up, for each of `count` keys, the first words of records of
// `width` words.
#[unsafe(no_mangle)]
pub extern "C" fn nultiway_peers_total_of_each(
    peers: &[u64],
    peer_table: &[u64],
    snapshot_keys: &[u64],
    contested: &[u64],
    keys: &[u64],
    width: u64,
    count: u64,
    out: &mut [f64],
) -> u8
    ensures { Calls.TotalOfEach peers.now (tables peer_table.now snapshot_keys.now contested.now)
        keys.now width count out.old result out.new }
{
    if peers.len() < PEERS_WORDS {
        return 1;
    }
    let p = peers_of(peers);
    let w = width as usize;
    let n = count as usize;
    change_number(p.total_of_each(peer_table, snapshot_keys, contested, keys, w, n, out))
}

// Tells of each of `count` keys, the first words of records of `width` words, whether it is
// primary at a peer.
#[unsafe(no_mangle)]
pub extern "C" fn nultiway_peers_hot_elsewhere_of_each(
    peers: &[u64],
    peer_table: &[u64],
    snapshot_keys: &[u64],
    contested: &[u64],
    keys: &[u64],
    width: u64,
    count: u64,
    out: &mut [bool],
) -> u8
    ensures { Calls.HotElsewhereOfEach peers.now
        (tables peer_table.now snapshot_keys.now contested.now) keys.now width count
        out.old result out.new }
{
    if peers.len() < PEERS_WORDS {
        return 1;
    }
    let p = peers_of(peers);
    let w = width as usize;
    let n = count as usize;
    change_number(p.hot_elsewhere_of_each(peer_table, snapshot_keys, contested, keys, w, n, out))
}
