// Question 2 of the limiter's tables: whether their records could stand in a valid image. Integer
// compares only. The words are the caller's, and the limiter has their counts, as C callers keep
// them: so the two go side by side.
ghost use Rattle.std.specs.Prelude.{◌≡◌, ◌+◌, ◌*◌, ◌≤◌, length, drop};
ghost use Rattle.records.specs.Records.{records};
ghost use Rattle.records.specs.Typed.{are_records};
ghost use Rattle.gcra.specs.Packed.{valid_burst};
ghost use Rattle.demand.specs.Allocation.{is_rate};
ghost use Rattle.hot.specs.HotSet.Steps.{are_entry_words};
ghost use Rattle.limiter.specs.State.{float_of};
ghost use Rattle.limiter.specs.Steps.Scan.{is_limit, are_rates, is_meter, are_key_words, are_words, IsWidth};
ghost use Rattle.limiter.specs.Steps.Scan.{keys_below, merges, are_keys, are_of};
ghost use Rattle.limiter.specs.Steps.Scan.{KeysReady};
ghost use Rattle.limiter.specs.Steps.KeySteps.{units};

use crate::{HOT_WORDS, KEY_WORDS, SHADOW_WORDS};
use gcra::Quota;
use hot::hot_set;
use records::fields::is_time;

// Whether the word is that of a rate: finite and above 0.
fn is_rate(word: u64) -> bool
    ensures { result ≡ is_rate (float_of word) }
{
    word != 0 && float::is_magnitude_bits(word)
}

// Whether the number is one that a burst may be.
fn is_burst(burst: u64) -> bool
    ensures { result ≡ valid_burst burst }
{
    0 < burst && burst <= u64::from(Quota::MAX_BURST)
}

// Whether the words are those of a limit.
#[tactic(auto, unfolding(crate::specs::Steps::Scan::is_limit))]
fn is_limit(rate: u64, burst: u64) -> bool
    ensures { result ≡ is_limit rate burst }
{
    is_rate(rate) && is_burst(burst)
}

// Whether the words are those of four estimators' rates.
fn are_rates(demand: u64, requests: u64, denials: u64, shadow_denials: u64) -> bool
    ensures { result ≡ are_rates demand requests denials shadow_denials }
{
    [demand, requests, denials, shadow_denials]
        .iter()
        .all(|rate| float::is_magnitude_bits(*rate))
}

// Whether the words are those of a meter.
#[tactic(auto, unfolding(crate::specs::Steps::Scan::is_meter))]
fn is_meter(packed: u64, flag: u64, tat: u64) -> bool
    ensures { result ≡ is_meter units packed flag tat }
{
    Quota::is_packed(packed) && is_time(flag, tat)
}

// Whether the words are those of a valid key.
fn is_key(words: &[u64]) -> bool
    requires { length words.now ≡ 22 }
    ensures { result ≡ are_key_words units words.now }
{
    is_limit(words[1], words[2])
        && are_rates(words[3], words[7], words[11], words[15])
        && is_meter(words[19], words[20], words[21])
}

// Whether the words are those of a valid key or, where they are four, of a valid shadow.
#[tactic(auto, using(std::proofs::lemmas::Bool::Decides::nat_tests), unfolding(crate::specs::Steps::Scan::are_words))]
fn is_record(words: &[u64]) -> bool
    requires { IsWidth (length words.now) }
    ensures { result ≡ are_words units words.now }
{
    if words.len() == SHADOW_WORDS {
        is_meter(words[1], words[2], words[3])
    } else {
        is_key(words)
    }
}

// Whether the first n records are valid keys or shadows, and ascend.
fn are_records(t: &[u64], w: usize, n: usize) -> bool
    requires { IsWidth w × (n * w ≤ length t.now) }
    ensures { result ≡ are_records (are_words units) (records w n t.now) }
{
    for i in 0..n {
        let at = i * w;
        if !(records::follows(t, w, at) && is_record(&t[at..at + w])) {
            return false;
        }
    }
    true
}

// The first of m keys, from `from` on, that is not below `id`, or m.
fn seek(keys: &[u64], m: usize, from: usize, id: u64) -> usize
    requires { m * 22 ≤ length keys.now }
    ensures { result ≡ from + keys_below id (drop from (records 22 m keys.now)) }
{
    for j in from..m {
        if id <= keys[j * KEY_WORDS] {
            return j;
        }
    }
    from.max(m)
}

// Whether the first word of each of n records is that of one of m keys; both ascend.
fn are_among(t: &[u64], w: usize, n: usize, keys: &[u64], m: usize) -> bool
    requires { (1 ≤ w) × (n * w ≤ length t.now) × (m * 22 ≤ length keys.now) }
    ensures { result ≡ merges (records w n t.now) (records 22 m keys.now) }
{
    let mut next = 0;
    for i in 0..n {
        let id = t[i * w];
        let j = seek(keys, m, next, id);
        if m <= j || keys[j * KEY_WORDS] != id {
            return false;
        }
        next = j + 1;
    }
    true
}

// Whether the first n records are those of `size` valid keys at most, in their order.
pub(crate) fn are_keys(t: &[u64], n: usize, size: usize) -> bool
    requires { size * 22 ≤ length t.now }
    ensures { result ≡ are_keys units size (records 22 n t.now) }
{
    n <= size && are_records(t, KEY_WORDS, n)
}

// Whether the first n records are those of `size` valid hot entries at most, in the order of their
// keys, which are among m keys.
pub(crate) fn are_hot(t: &[u64], n: usize, size: usize, keys: &[u64], m: usize) -> bool
    requires { KeysReady m keys.now × (size * 6 ≤ length t.now) }
    ensures { result ≡ are_of are_entry_words size (records 22 m keys.now) (records 6 n t.now) }
{
    n <= size && hot_set::are_valid(t, n) && are_among(t, HOT_WORDS, n, keys, m)
}

// The same of shadows.
pub(crate) fn are_shadows(t: &[u64], n: usize, size: usize, keys: &[u64], m: usize) -> bool
    requires { KeysReady m keys.now × (size * 4 ≤ length t.now) }
    ensures { result ≡ are_of (are_words units) size (records 22 m keys.now) (records 4 n t.now) }
{
    n <= size && are_records(t, SHADOW_WORDS, n) && are_among(t, SHADOW_WORDS, n, keys, m)
}
