// A peer's report in lent words, three for each key that it lists: the key, its demand as the bits
// of an f32 in the low half, and whether the sender has it as primary.
ghost use Rattle.std.specs.Prelude.{◌≡◌, ◌*◌, ◌≤◌, min, length};
ghost use Rattle.records.specs.Records.{records};
ghost use Rattle.questions.specs.Questions.{first_no};
ghost use Rattle.questions.specs.Lists.{all};
ghost use Rattle.nultiway.specs.PeerCalls.{is_listed, listed_of, blank_key, keys_of, report_of, report_asked};

use peers::peer_demand::{DemandReport, KeyDemand};

// The words of a key in a report.
pub const REPORT_WORDS: usize = 3;

// How many words an f32's bits may be.
const HALVES: u64 = 1 << 32;

// Whether the words are those of a key: the high half of its demand is 0, and its flag 0 or 1.
#[tactic(auto, unfolding(crate::specs::PeerCalls::is_listed))]
fn is_listed(words: &[u64]) -> bool
    requires { length words.now ≡ 3 }
    ensures { result ≡ is_listed words.now }
{
    words[1] < HALVES && words[2] <= 1
}

// Whether all of the first n keys' words are.
fn are_listed(words: &[u64], n: usize) -> bool
    requires { n * 3 ≤ length words.now }
    ensures { result ≡ all is_listed (records 3 n words.now) }
{
    for i in 0..n {
        let at = i * REPORT_WORDS;
        if !is_listed(&words[at..at + REPORT_WORDS]) {
            return false;
        }
    }
    true
}

// The key of three words.
fn listed_of(words: &[u64]) -> KeyDemand
    requires { length words.now ≡ 3 }
    ensures { result ≡ listed_of words.now }
{
    let demand = words[1] % HALVES;
    KeyDemand {
        key_hash: words[0],
        demand: float::f32_from_bits(demand as u32),
        primary: words[2] != 0,
    }
}

// What stands in the places past the keys that are listed.
fn blank_key() -> KeyDemand
    ensures { result ≡ blank_key }
{
    KeyDemand {
        key_hash: 0,
        demand: float::f32_from_bits(0),
        primary: false,
    }
}

// The first n keys.
fn listed_keys(words: &[u64], n: usize) -> [KeyDemand; 64]
    requires { (n ≤ 64) × (n * 3 ≤ length words.now) }
    ensures { result ≡ keys_of n words.now }
{
    let mut keys = [blank_key(); 64];
    for i in 0..n {
        let at = i * REPORT_WORDS;
        keys[i] = listed_of(&words[at..at + REPORT_WORDS]);
    }
    keys
}

// The report; of a count above 64 no more than 64 keys are read.
pub(crate) fn report_of(
    origin: u64,
    epoch: u32,
    round: u16,
    words: &[u64],
    count: u64,
) -> DemandReport
    requires { min count 64 * 3 ≤ length words.now }
    ensures { result ≡ report_of origin epoch round words.now count }
{
    let keys = listed_keys(words, count.min(64) as usize);
    DemandReport {
        origin,
        epoch,
        round,
        count: count as usize,
        keys,
    }
}

// Question 1, of whether the peers have room and of the report's words, and question 2 of the
// latter: the first that is answered 'no', 0 where none is.
pub(crate) fn ask_report(room: bool, words: &[u64], count: u64) -> u8
    ensures { result ≡ first_no (report_asked room words.now count) }
{
    if !room {
        return 1;
    }
    let least = count.min(65) as usize * REPORT_WORDS;
    if words.len() < least {
        return 1;
    }
    if !are_listed(words, count.min(64) as usize) {
        return 2;
    }
    0
}
