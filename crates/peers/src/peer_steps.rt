// The steps of a departure and of expiry: records taken out, kept by a test, or changed, in one
// lent table.
ghost use Rattle.std.specs.Prelude.{◌≡◌, ℕ, IfSome, ◌+◌, ◌*◌, ◌<◌, ◌≤◌, true, cond, ◌&&◌, map, length, if◌then◌else◌, nat_lt, slice_index};
ghost use Rattle.records.specs.Words.{copy_within};
ghost use Rattle.records.specs.Records.{records, overwritten};
ghost use Rattle.questions.specs.Lists.{only, those, replaced};
ghost use Rattle.records.specs.Fields.{flag_of, time_of};
ghost use Rattle.peers.specs.Peers.Records.{peer_words, peer_of, snapshot_key_of, contested_of, snapshot_of};
ghost use Rattle.peers.specs.Peers.State.{has_snapshot, is_taken, is_held};
ghost use Rattle.records.specs.Typed.{exact, first_word, Tabled, in_order};
ghost use Rattle.peers.specs.Peers.Changes.{is_fresh, hold, age_peer};
ghost use Rattle.peers.specs.Peers.Steps.Stays.{place_of, stays_contested, is_stale, stays_peer};

use crate::peer_demand::{CONTESTED_WORDS, PEER_WORDS, SNAPSHOT_KEY_WORDS};
use crate::peer_runs;

// One step of keeping records: the one at `i` goes behind the `kept` first ones, if it stays and is
// not there. Tells how many are kept.
fn keep_record(t: &mut [u64], w: usize, i: usize, kept: usize, stays: bool) -> usize
    requires { (1 ≤ w) × (kept ≤ i) × (i * w + w ≤ length t.old) }
    ensures value { result ≡ (if stays then kept + 1 else kept) }
    ensures t_after { t.new ≡ (if stays then copy_within (i * w) (i * w + w) (kept * w) t.old else t.old) }
{
    if !stays {
        return kept;
    }
    if kept < i {
        let at = i * w;
        records::copy_words(t, at, at + w, kept * w);
    }
    kept + 1
}

// Whether what was heard then was heard less than `max_age` ago.
fn is_fresh(reading: u64, max_age: u64, heard_at: u64) -> bool
    ensures { result ≡ is_fresh reading max_age heard_at }
{
    reading < heard_at.saturating_add(max_age)
}

// The first `count` peers of a table, in their order.
#[derive(Clone, Copy)]
struct Peers<'a> {
    words: &'a [u64],
    count: usize,
    ghost order: { in_order 12 1 count words.now ≡ true },
}

impl<'a> Peers<'a> {
    // Where the peer `id` is, if it is there. It is looked for at `near` first: the keys of a peer stand
    // together.
    fn place(self, id: u64, near: usize) -> Option<usize>
        ensures place { result ≡ place_of self.entry.count id self.entry.words.now }
        ensures within { IfSome result (λ i. i < self.entry.count) }
    {
        if near < self.count && self.words[near * PEER_WORDS] == id {
            return Some(near);
        }
        match records::find(self.words, PEER_WORDS, 1, self.count, id, 0) {
            records::Found::At(i) => Some(i),
            _ => None,
        }
    }

    // Whether a peer is at this place and has a snapshot.
    fn has_snapshot(self, place: Option<usize>) -> bool
        requires { IfSome place (λ i. i < self.count) }
        ensures { (id : ℕ) → place ≡ place_of self.entry.count id self.entry.words.now
            → result ≡ has_snapshot (map peer_of (records 12 self.entry.count self.entry.words.now)) id }
    {
        let Some(i) = place else {
            return false;
        };
        self.words[i * PEER_WORDS + 3] != 0
    }

    // Whether a peer is at this place and a contested key of it, heard then, stays.
    fn stays_contested(
        self,
        place: Option<usize>,
        heard_at: u64,
        reading: u64,
        max_age: u64,
    ) -> bool
        requires { IfSome place (λ i. i < self.count) }
        ensures { (id : ℕ) → place ≡ place_of self.entry.count id self.entry.words.now
            → result ≡ stays_contested reading max_age (map peer_of (records 12 self.entry.count self.entry.words.now)) id heard_at }
    {
        let Some(i) = place else {
            return false;
        };
        let at = i * PEER_WORDS;
        if self.words[at + 1] != 0 {
            reading < self.words[at + 2]
        } else {
            is_fresh(reading, max_age, heard_at)
        }
    }
}

// Keeps the contested keys that stay, and tells how many.
pub(crate) fn retain_contested(
    peers: &[u64],
    n: usize,
    contested: &mut [u64],
    c: usize,
    reading: u64,
    max_age: u64,
) -> usize
    requires { (in_order 12 1 n peers.now ≡ true) × (c * 6 ≤ length contested.old) }
    ensures { Tabled result
        (only
        (λ x. stays_contested reading max_age (map peer_of (records 12 n peers.now))
        (contested_of x).peer (contested_of x).heard_at) (records 6 c contested.old))
        contested.old contested.new }
{
    let peers = Peers {
        words: peers,
        count: n,
    };
    let mut near = 0;
    let mut kept = 0;
    for i in 0..c {
        let at = i * CONTESTED_WORDS;
        let place = peers.place(contested[at], near);
        near = place.unwrap_or(near);
        let stays = peers.stays_contested(place, contested[at + 5], reading, max_age);
        kept = keep_record(contested, CONTESTED_WORDS, i, kept, stays);
    }
    kept
}

// Whether a peer that is not held has no snapshot or one that is too old.
#[tactic(auto, unfolding(crate::specs::Peers::Steps::Stays::is_stale))]
fn is_stale(held: u64, taken: u64, heard_at: u64, reading: u64, max_age: u64) -> bool
    ensures { result ≡ is_stale reading max_age (time_of held 0) (snapshot_of taken 0 0 heard_at) }
{
    held == 0 && (taken == 0 || !is_fresh(reading, max_age, heard_at))
}

// The words of a peer, without a snapshot that is too old and its past epochs.
fn aged_words(words: [u64; PEER_WORDS], reading: u64, max_age: u64) -> [u64; PEER_WORDS]
    requires { peer_words (peer_of words) ≡ words }
    ensures { result ≡ peer_words (age_peer is_held reading max_age (peer_of words)) }
{
    if is_stale(words[1], words[3], words[6], reading, max_age) {
        return [words[0], 0, 0, 0, 0, 0, 0, 0, 0, 0, 0, 0];
    }
    words
}

// Whether a peer stays, of which these words are known.
fn stays_peer(
    contested: &[u64],
    c: usize,
    id: u64,
    held: u64,
    until: u64,
    taken: u64,
    reading: u64,
) -> bool
    requires { in_order 6 2 c contested.now ≡ true }
    ensures { result ≡ stays_peer reading (map contested_of (records 6 c contested.now)) id (time_of held until)
        (flag_of taken) }
{
    if held != 0 {
        return reading < until;
    }
    taken != 0 || peer_runs::has_run(contested, CONTESTED_WORDS, c, id)
}

// One step of keeping peers: the words of one go behind the `kept` first ones, if it stays. Tells
// how many are kept.
fn keep_peer(peers: &mut [u64], n: usize, kept: usize, words: &[u64], stays: bool) -> usize
    requires { (kept < n) × (n * 12 ≤ length peers.old) × (length words.now ≡ 12) }
    ensures value { result ≡ (if stays then kept + 1 else kept) }
    ensures peers_after { peers.new ≡ cond stays (overwritten 12 n kept words.now peers.old)
        peers.old }
{
    if stays {
        records::overwrite(peers, PEER_WORDS, n, kept, words);
    }
    kept + usize::from(stays)
}

// Keeps the peers that stay once each has lost a snapshot that is too old, and tells how many.
pub(crate) fn retain_peers(
    contested: &[u64],
    c: usize,
    peers: &mut [u64],
    n: usize,
    reading: u64,
    max_age: u64,
) -> usize
    requires { (in_order 6 2 c contested.now ≡ true) × (n * 12 ≤ length peers.old) ×
        (exact peer_words peer_of (records 12 n peers.old) ≡ true) }
    ensures { Tabled result
        (only
        (λ x. stays_peer reading (map contested_of (records 6 c contested.now))
        (peer_of x).id (peer_of x).held_until (is_taken (peer_of x)))
        (map (λ x. peer_words (age_peer is_held reading max_age (peer_of x)))
        (records 12 n peers.old))) peers.old peers.new }
{
    let mut kept = 0;
    for i in 0..n {
        let at = i * PEER_WORDS;
        let mut words = [0; PEER_WORDS];
        words.copy_from_slice(&peers[at..at + PEER_WORDS]);
        words = aged_words(words, reading, max_age);
        let stays = stays_peer(
            contested, c, words[0], words[1], words[2], words[3], reading,
        );
        kept = keep_peer(peers, n, kept, &words, stays);
    }
    kept
}

// Keeps the snapshot keys whose peer has a snapshot, and tells how many. The loop is that of
// `retain_contested`: one function for both takes a closure for the test, and the closures' clauses are
// longer than the loops.
pub(crate) fn retain_snapshot_keys(
    peers: &[u64],
    n: usize,
    snapshot_keys: &mut [u64],
    k: usize,
) -> usize
    requires { (in_order 12 1 n peers.now ≡ true) × (k * 4 ≤ length snapshot_keys.old) }
    ensures { Tabled result
        (only (λ x. has_snapshot (map peer_of (records 12 n peers.now)) (snapshot_key_of x).peer)
        (records 4 k snapshot_keys.old)) snapshot_keys.old
        snapshot_keys.new }
{
    let peers = Peers {
        words: peers,
        count: n,
    };
    let mut near = 0;
    let mut kept = 0;
    for i in 0..k {
        let at = i * SNAPSHOT_KEY_WORDS;
        let place = peers.place(snapshot_keys[at], near);
        near = place.unwrap_or(near);
        let stays = peers.has_snapshot(place);
        kept = keep_record(snapshot_keys, SNAPSHOT_KEY_WORDS, i, kept, stays);
    }
    kept
}

// Holds a peer until then, if it is known.
pub(crate) fn hold_peer(peers: &mut [u64], n: usize, id: u64, until: u64)
    requires { (in_order 12 1 n peers.old ≡ true) × (exact peer_words peer_of (records 12 n peers.old) ≡ true) }
    ensures { Tabled n
        (replaced first_word id
        (map (λ x. peer_words (hold until (peer_of x)))
        (those first_word id (records 12 n peers.old)))
        (records 12 n peers.old)) peers.old peers.new }
{
    if let records::Found::At(i) = records::find(peers, PEER_WORDS, 1, n, id, 0) {
        let at = i * PEER_WORDS;
        peers[at + 1] = 1;
        peers[at + 2] = until;
    }
}
