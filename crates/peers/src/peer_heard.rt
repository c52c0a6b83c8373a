// What one peer said about one key: its snapshot's word, its contested one, and both together.
ghost use Rattle.std.specs.Prelude.{◌≡◌, ◌+◌, ◌*◌, ◌^◌, ◌<◌, ◌≤◌, cond, ◌||◌, map, length, slice_index, MatchOption, None};
ghost use Rattle.records.specs.Records.{records};
ghost use Rattle.peers.specs.Peers.Records.{snapshot_of, snapshot_key_of, contested_of};
ghost use Rattle.peers.specs.Peers.Readers.{heard_taken, heard_contested, snapshot_key_at, contested_at, add_heard};
ghost use Rattle.peers.specs.Peers.Readers as readers;
ghost use Rattle.peers.specs.Peers.Steps.Heard.{heard_of, is_listed, KeyTable, KeyIn};
ghost use Rattle.questions.specs.Lists.{first, those};
ghost use Rattle.records.specs.Typed.{first_word, second_word};

use crate::peer_demand::{CONTESTED_WORDS, Heard, SNAPSHOT_KEY_WORDS};

// The words of a peer's key in a table of keys of w words.
fn key_in(t: &[u64], w: usize, n: usize, id: u64, key: u64) -> Option<&[u64]>
    requires { KeyTable w n t.now }
    ensures { MatchOption result (first (those second_word key (those first_word id (records w n t.now))) ≡ None)
        (λ r. KeyIn w id key (records w n t.now) r.now) }
{
    match records::find(t, w, 2, n, id, key) {
        records::Found::At(i) => Some(&t[i * w..i * w + w]),
        _ => None,
    }
}

// The demand and the flag of a key, with a round and a time.
fn key_heard(r: &[u64], round: u64, heard_at: u64) -> Heard
    requires { (4 ≤ length r.now) × (slice_index r.now 2 < 2 ^ 32) × (round < 2 ^ 16) }
    ensures { result ≡ heard_of (slice_index r.now 2) (slice_index r.now 3) round heard_at }
{
    Heard {
        demand: float::f32_from_bits(r[2] as u32),
        primary: r[3] != 0,
        round: round as u16,
        heard_at,
    }
}

// The snapshot's word on a key, where there is a snapshot.
pub(crate) fn heard_taken(
    t: &[u64],
    n: usize,
    id: u64,
    key: u64,
    flag: u64,
    round: u64,
    heard_at: u64,
) -> Option<Heard>
    requires key_table { KeyTable 4 n t.now }
    requires round_bound { round < 2 ^ 16 }
    ensures { result ≡ heard_taken (snapshot_of flag 0 round heard_at)
        (snapshot_key_at id key (map snapshot_key_of (records 4 n t.now))) }
{
    if flag == 0 {
        return None;
    }
    let r = key_in(t, SNAPSHOT_KEY_WORDS, n, id, key)?;
    Some(key_heard(r, round, heard_at))
}

// The contested word on a key.
pub(crate) fn heard_contested(t: &[u64], n: usize, id: u64, key: u64) -> Option<Heard>
    requires { KeyTable 6 n t.now }
    ensures { result ≡ heard_contested (contested_at id key (map contested_of (records 6 n t.now))) }
{
    let r = key_in(t, CONTESTED_WORDS, n, id, key)?;
    Some(key_heard(r, r[4], r[5]))
}

// The word with the higher demand, the snapshot's of equal ones; primary where one of them is.
fn joined(taken: Heard, contested: Heard) -> Heard
    ensures { result ≡ readers.joined taken contested }
{
    let primary = taken.primary || contested.primary;
    if taken.demand < contested.demand {
        return Heard {
            primary,
            ..contested
        };
    }
    Heard { primary, ..taken }
}

// The snapshot's word on a key and the contested one.
pub(crate) fn join(taken: Option<Heard>, contested: Option<Heard>) -> Option<Heard>
    ensures { result ≡ readers.join taken contested }
{
    match (taken, contested) {
        (None, _) => contested,
        (_, None) => taken,
        (Some(t), Some(c)) => Some(joined(t, c)),
    }
}

// Adds what was heard.
pub(crate) fn add_heard(sum: f64, said: Option<Heard>) -> f64
    ensures { result ≡ add_heard sum said }
{
    said.map_or(sum, |h| sum + float::f32_to_f64(h.demand))
}

// Whether it is hot by the peer's own demand.
pub(crate) fn is_primary(said: Option<Heard>) -> bool
    ensures { result ≡ readers.is_primary said }
{
    said.is_some_and(|h| h.primary)
}

// Whether a peer's snapshot has a key.
fn is_listed(t: &[u64], n: usize, id: u64, key: u64) -> bool
    requires { KeyTable 4 n t.now }
    ensures { result ≡ is_listed id key (map snapshot_key_of (records 4 n t.now)) }
{
    key_in(t, SNAPSHOT_KEY_WORDS, n, id, key).is_some()
}

// 1 where contested key i is not one of the n snapshot keys in t, else 0.
pub(crate) fn count_unlisted(t: &[u64], n: usize, contested: &[u64], i: usize) -> usize
    requires key_table { KeyTable 4 n t.now }
    requires i_in_bounds { i * 6 + 6 ≤ length contested.now }
    ensures { result ≡ cond
        (is_listed (slice_index contested.now (i * 6)) (slice_index contested.now (i * 6 + 1))
        (map snapshot_key_of (records 4 n t.now))) 0 1 }
{
    let at = i * CONTESTED_WORDS;
    usize::from(!is_listed(t, n, contested[at], contested[at + 1]))
}
