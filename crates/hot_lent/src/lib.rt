// The hot set over a lent slice of entries: their words are copied, the functions over words act on
// these, and the entries that an update leaves are copied back.
#![tactic(auto)]

ghost use Rattle.std.specs.Prelude.{◌≡◌, false, length, take};
ghost use Rattle.hot.specs.HotSet.Calls as Calls;
ghost use Rattle.hot_lent.specs.Entries.{lent_words, UpdatedEntries};

use hot::hot_set::{HotEntry, HotSet, Updated};
use questions::Refusal;

// Words for the most entries that may count.
const ROOM: usize = HotEntry::WORDS * HotSet::MAX_SIZE;

// How many words the lent entries take: a hot set holds at most 64.
fn word_count(entries: &[HotEntry]) -> usize
    ensures { result ≡ length (lent_words entries.now) }
{
    HotEntry::WORDS * entries.len().min(HotSet::MAX_SIZE)
}

// The words of the lent entries, and zeros behind them.
fn words_of(entries: &[HotEntry]) -> [u64; ROOM]
    ensures front { take (length (lent_words entries.now)) result ≡ lent_words entries.now }
    ensures long { length result ≡ 384 }
{
    let mut words = [0; ROOM];
    for i in 0..entries.len().min(HotSet::MAX_SIZE) {
        let at = i * HotEntry::WORDS;
        words[at..at + HotEntry::WORDS].copy_from_slice(&entries[i].words());
    }
    words
}

// Takes in a key's demand, where a peer may have the key as primary; answers whether the key is hot
// then.
pub fn update_with(
    set: HotSet,
    entries: &mut [HotEntry],
    key: u64,
    demand_rate: f64,
    threshold: f64,
    now: u64,
    hot_elsewhere: bool,
) -> Result<Updated, Refusal>
    ensures { UpdatedEntries set entries.old key demand_rate threshold now hot_elsewhere result
        entries.new }
{
    let n = word_count(entries);
    let mut words = words_of(entries);
    let lent = &mut words[..n];
    let updated = set.update_with(lent, key, demand_rate, threshold, now, hot_elsewhere)?;
    let (records, _) = words.as_chunks();
    for i in 0..updated.set.len {
        entries[i] = HotEntry::of_record(records[i]);
    }
    Ok(updated)
}

// The same, where no peer has the key as primary.
pub fn update(
    set: HotSet,
    entries: &mut [HotEntry],
    key: u64,
    demand_rate: f64,
    threshold: f64,
    now: u64,
) -> Result<Updated, Refusal>
    ensures { UpdatedEntries set entries.old key demand_rate threshold now false result
        entries.new }
{
    update_with(set, entries, key, demand_rate, threshold, now, false)
}

// Whether the set has the key.
pub fn is_hot(set: HotSet, entries: &[HotEntry], key: u64) -> Result<bool, Refusal>
    ensures { Calls.SaidHot set (lent_words entries.now) key result }
{
    set.is_hot(&words_of(entries)[..word_count(entries)], key)
}

// Whether the set has the key as primary.
pub fn is_primary(set: HotSet, entries: &[HotEntry], key: u64) -> Result<bool, Refusal>
    ensures { Calls.SaidPrimary set (lent_words entries.now) key result }
{
    set.is_primary(&words_of(entries)[..word_count(entries)], key)
}

// When the key came in, if the set has it.
pub fn hot_since(set: HotSet, entries: &[HotEntry], key: u64) -> Result<Option<u64>, Refusal>
    ensures { Calls.SaidSince set (lent_words entries.now) key result }
{
    set.hot_since(&words_of(entries)[..word_count(entries)], key)
}

// How many entries there are.
pub fn len(set: HotSet, entries: &[HotEntry]) -> Result<usize, Refusal>
    ensures { Calls.SaidLen set (lent_words entries.now) result }
{
    set.len(&words_of(entries)[..word_count(entries)])
}
