// Question 2 of the peers' tables: whether their records could stand in a valid image. Integer
// compares only.
ghost use Rattle.std.specs.Prelude.{◌≡◌, suc, ◌+◌, ◌-◌, ◌*◌, ◌^◌, ◌<◌, ◌≤◌, true, length, drop, slice_index, is_some, IfSome};
ghost use Rattle.records.specs.Records.{records};
ghost use Rattle.questions.specs.Lists.{all};
ghost use Rattle.peers.specs.Peers.Steps.Scan.{is_snapshot, is_past_epoch, is_past, are_peer_words};
ghost use Rattle.peers.specs.Peers.Steps.Scan.{are_key_words, is_key_of, run_length, is_run, are_runs};
ghost use Rattle.peers.specs.Peers.Steps.Scan.{are_peers, are_keys, PeersReady, KeysReady, Starts};

use crate::peer_demand::{MAX_PEERS, PEER_WORDS, STARTS};
use records::fields;

// Whether the words are those of a snapshot that may be missing.
#[tactic(auto, unfolding(crate::specs::Peers::Steps::Scan::is_snapshot))]
fn is_snapshot(flag: u64, epoch: u64, round: u64, heard_at: u64) -> bool
    ensures { result ≡ is_snapshot flag epoch round heard_at }
{
    if flag == 0 {
        return epoch == 0 && round == 0 && heard_at == 0;
    }
    flag == 1 && epoch < 0x1_0000_0000 && round < 0x1_0000
}

// Whether past epoch i of a count is one, or 0 where it is not counted.
#[tactic(auto, unfolding(crate::specs::Peers::Steps::Scan::is_past_epoch))]
fn is_past_epoch(count: u64, i: u64, epoch: u64) -> bool
    ensures { result ≡ is_past_epoch count i epoch }
{
    if i < count {
        epoch < 0x1_0000_0000
    } else {
        epoch == 0
    }
}

// Whether the words are a count of past epochs and four of them.
#[tactic(auto, unfolding(crate::specs::Peers::Steps::Scan::is_past))]
fn is_past(count: u64, a: u64, b: u64, c: u64, d: u64) -> bool
    ensures { result ≡ is_past count a b c d }
{
    count <= 4
        && is_past_epoch(count, 0, a)
        && is_past_epoch(count, 1, b)
        && is_past_epoch(count, 2, c)
        && is_past_epoch(count, 3, d)
}

// Whether the words are those of a valid peer.
#[tactic(auto, unfolding(crate::specs::Peers::Steps::Scan::is_peer))]
pub(crate) fn are_peer_words(words: &[u64]) -> bool
    requires { length words.now ≡ 12 }
    ensures { result ≡ are_peer_words words.now }
{
    fields::is_time(words[1], words[2])
        && is_snapshot(words[3], words[4], words[5], words[6])
        && is_past(words[7], words[8], words[9], words[10], words[11])
        && (0 < words[3] || words[7] == 0)
}

// Whether the words are those of a valid key of a peer.
#[tactic(auto, unfolding(crate::specs::Peers::Steps::Scan::are_key_words))]
pub(crate) fn are_key_words(r: &[u64]) -> bool
    requires { 4 ≤ length r.now }
    ensures { result ≡ are_key_words (length r.now) r.now }
{
    r[2] < 0x7f80_0000 && r[3] <= 1 && (r.len() <= 4 || r[4] < 0x1_0000)
}

// Whether the first n records are those of valid peers.
fn are_all_peer_words(t: &[u64], n: usize) -> bool
    requires { n * 12 ≤ length t.now }
    ensures { result ≡ all are_peer_words (records 12 n t.now) }
{
    for i in 0..n {
        let at = i * PEER_WORDS;
        if !are_peer_words(&t[at..at + PEER_WORDS]) {
            return false;
        }
    }
    true
}

// Whether the words are those of a valid key of the peer `id`.
#[tactic(auto, unfolding(crate::specs::Peers::Steps::Scan::is_key_of))]
fn is_key_of(r: &[u64], id: u64) -> bool
    requires { 4 ≤ length r.now }
    ensures { result ≡ is_key_of (length r.now) id 0 r.now }
{
    r[0] == id && are_key_words(r)
}

// The same where the key is also above the last one.
#[tactic(auto, unfolding(crate::specs::Peers::Steps::Scan::is_key_of))]
fn is_next_key_of(r: &[u64], id: u64, last: u64) -> bool
    requires { 4 ≤ length r.now }
    ensures { result ≡ is_key_of (length r.now) id (suc last) r.now }
{
    last < r[1] && is_key_of(r, id)
}

// The end of the run of the peer's keys that begins at record `from`.
fn run_end(t: &[u64], w: usize, n: usize, from: usize, id: u64) -> usize
    requires { KeysReady w n t.now }
    ensures { result ≡ from + run_length w id 0 (drop from (records w n t.now)) }
{
    if n <= from || !is_key_of(&t[from * w..from * w + w], id) {
        return from;
    }
    for i in from + 1..n {
        let at = i * w;
        if !is_next_key_of(&t[at..at + w], id, t[at - w + 1]) {
            return i;
        }
    }
    n
}

// Whether a peer with this snapshot flag may have so many keys.
#[tactic(auto, unfolding(crate::specs::Peers::Steps::Scan::is_run))]
fn is_run(count: usize, flag: u64, least: u64, bound: usize) -> bool
    ensures { result ≡ is_run least bound flag count }
{
    count == 0 || (count <= bound && least <= flag)
}

// Whether the first n records are a run of keys for each peer, in the order of the peers; where they
// are, where each run starts, and then where the last one ends.
fn are_runs(
    t: &[u64],
    w: usize,
    n: usize,
    peers: &[u64],
    p: usize,
    least: u64,
    bound: usize,
) -> Option<[u16; STARTS]>
    requires p_in_bounds { p * 12 ≤ length peers.now }
    requires keys_ready { KeysReady w n t.now }
    requires few_peers { p ≤ 32 }
    requires few_keys { n < 2 ^ 16 }
    ensures value { is_some result ≡ are_runs w least bound (records 12 p peers.now) (records w n t.now) }
    ensures starts { IfSome result (λ starts. Starts w n p n t.now peers.now starts) }
{
    let mut starts = [0; STARTS];
    let mut from = 0;
    for i in 0..p {
        let to = run_end(t, w, n, from, peers[i * PEER_WORDS]);
        if !is_run(to - from, peers[i * PEER_WORDS + 3], least, bound) {
            return None;
        }
        starts[i + 1] = to as u16;
        from = to;
    }
    (from == n).then_some(starts)
}

// Whether the first n records are those of 32 valid peers at most, in their order.
pub(crate) fn are_peers(t: &[u64], n: usize) -> bool
    requires { 384 ≤ length t.now }
    ensures { result ≡ are_peers (records 12 n t.now) }
{
    n <= MAX_PEERS && are_all_peer_words(t, n) && records::is_ascending(t, PEER_WORDS, 1, n)
}

// Whether the first n records of w words are those of valid keys of the peers, in their order, at
// most `bound` of a peer; where they are, where the keys of each peer start.
pub(crate) fn are_keys(
    t: &[u64],
    w: usize,
    n: usize,
    peers: &[u64],
    p: usize,
    least: u64,
    bound: usize,
) -> Option<[u16; STARTS]>
    requires peers_ready { PeersReady p peers.now }
    requires le_w { (4 ≤ w) × (bound ≤ 256) × ((32 * bound) * w ≤ length t.now) }
    ensures value { is_some result ≡ are_keys w least bound (records 12 p peers.now) (records w n t.now) }
    ensures starts { IfSome result (λ starts. Starts w n p n t.now peers.now starts) }
{
    if MAX_PEERS * bound < n {
        return None;
    }
    are_runs(t, w, n, peers, p, least, bound)
}
