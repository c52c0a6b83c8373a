// The hot keys of a node. A key comes in with a demand above the threshold, as primary, or by the
// word of a peer that has it so, as secondary. Below the threshold a primary key stays for the
// cooldown; a full set takes a key in only by evicting its weakest.
// The entries stand in lent words; the crate `hot_lent` has the same calls over a lent slice of them.
ghost use Rattle.std.specs.Prelude.{◌≡◌, true, map, ◌+◌, ◌-◌, ◌*◌, ◌≤◌, ◌<◌, leb, length, drop};
ghost use Rattle.records.specs.Records.{table, find_in};
ghost use Rattle.questions.specs.Questions.{passes, first_no, answer};
ghost use Rattle.questions.specs.Refusals.{asked, answer_of};
ghost use Rattle.hot.specs.HotSet.Set as Set;
ghost use Rattle.hot.specs.HotSet.Steps.{are_words, are_entry_words, EntriesReady};
ghost use Rattle.hot.specs.HotSet.Steps.{Evicts, Promotes, Cools, Updates};
ghost use Rattle.hot.specs.HotSet.Calls as Calls;

use questions::Refusal;
use records::{Found, fields};

// To evict the weakest key a demand must be above this many times its own.
pub(crate) const EVICTION_MARGIN: f64 = 1.1;

// An entry of the set.
#[derive(Clone, Copy)]
pub struct HotEntry {
    pub key: u64,
    pub demand: f64,
    pub primary: bool,
    pub cooling_since: Option<u64>,
    pub since: u64,
}

// A set that may grow to `max_size` entries; `len` of them stand in the lent words.
#[derive(Clone, Copy)]
pub struct HotSet {
    pub cooldown: u64,
    pub max_size: usize,
    pub len: usize,
}

// What an update answers: whether the key is hot now, and the set.
#[derive(Clone, Copy)]
pub struct Updated {
    pub is_hot: bool,
    pub set: HotSet,
}

impl HotEntry {
    // The words of an entry: key, demand, primary, whether it is cooling, since when, and hot since
    // when.
    pub const WORDS: usize = 6;

    // A key that becomes hot at `now`.
    fn new(key: u64, demand: f64, primary: bool, now: u64) -> Self
        ensures { result ≡ Set.new_entry key demand primary now }
    {
        HotEntry {
            key,
            demand,
            primary,
            cooling_since: None,
            since: now,
        }
    }

    // The words of its record.
    #[tactic(auto, unfolding(crate::specs::HotSet::Set::words))]
    pub fn words(self) -> [u64; Self::WORDS]
        ensures { result ≡ Set.words self }
    {
        let [is_cooling, cooling_since] = fields::time_words(self.cooling_since);
        [
            self.key,
            float::to_bits(self.demand),
            fields::flag_word(self.primary),
            is_cooling,
            cooling_since,
            self.since,
        ]
    }

    // Whether words, whatever the key and since when it is hot, could be those of an entry in a valid
    // image.
    #[tactic(auto, using(std::proofs::lemmas::Bool::Decides::nat_tests))]
    pub fn are_words(demand: u64, primary: u64, cooling: u64, cooling_since: u64) -> bool
        ensures { result ≡ are_words demand primary cooling cooling_since }
    {
        float::is_magnitude_bits(demand) && primary <= 1 && fields::is_time(cooling, cooling_since)
    }

    // The entry whose words begin at `at`.
    fn of_words(hot: &[u64], at: usize) -> Self
        requires { at + 6 ≤ length hot.now }
        ensures { result ≡ Set.entry (drop at hot.now) }
    {
        HotEntry {
            key: hot[at],
            demand: float::from_bits(hot[at + 1]),
            primary: hot[at + 2] != 0,
            cooling_since: fields::time_of(hot[at + 3], hot[at + 4]),
            since: hot[at + 5],
        }
    }

    // The entry of a record's words.
    pub fn of_record(r: [u64; Self::WORDS]) -> Self
        ensures { result ≡ Set.entry r }
    {
        HotEntry::of_words(&r, 0)
    }

    // With new demand, and not cooling.
    fn renewed(self, demand: f64, primary: bool) -> Self
        ensures { result ≡ Set.renewed demand primary self }
    {
        HotEntry {
            demand,
            primary,
            cooling_since: None,
            ..self
        }
    }

    // With a demand that is not above the threshold: a primary entry begins to cool, and is primary no
    // more once it has cooled for the cooldown.
    #[tactic(auto, unfolding(crate::specs::HotSet::Set::cooled))]
    fn cool(self, demand: f64, now: u64, cooldown: u64) -> Self
        ensures { result ≡ Set.cooled cooldown demand now self }
    {
        if !self.primary {
            return HotEntry { demand, ..self };
        }
        match self.cooling_since {
            Some(since) if cooldown <= now.saturating_sub(since) => self.renewed(demand, false),
            since => HotEntry {
                demand,
                cooling_since: since.or(Some(now)),
                ..self
            },
        }
    }
}

// ---- questions

// Whether the size is one that a hot set may have.
#[tactic(auto, using(std::proofs::lemmas::Bool::Decides::nat_tests), unfolding(crate::specs::HotSet::Set::valid_size))]
fn is_valid_size(max_size: usize) -> bool
    ensures { result ≡ Set.valid_size max_size }
{
    1 <= max_size && max_size <= HotSet::MAX_SIZE
}

// Whether `len` words are enough for a set of that size; a size above 64 counts as 64.
fn has_room(max_size: usize, len: usize) -> bool
    ensures { result ≡ leb (Calls.room max_size) len }
{
    HotEntry::WORDS * max_size.min(HotSet::MAX_SIZE) <= len
}

// ---- the entries in lent words: the map of keys. The words are the caller's, and the set has their
// count, as C callers keep them: so the two go side by side.

// Whether the words at `at`, but for the key, could be those of an entry in a valid image.
fn is_entry(hot: &[u64], at: usize) -> bool
    requires { at + 6 ≤ length hot.now }
    ensures { result ≡ are_entry_words (drop at hot.now) }
{
    HotEntry::are_words(hot[at + 1], hot[at + 2], hot[at + 3], hot[at + 4])
}

// Whether the first n records are within the words, and could stand in a valid image.
pub fn are_valid(hot: &[u64], n: usize) -> bool
    ensures { Calls.SaidValid hot.now n result }
{
    if !records::fits(hot.len(), HotEntry::WORDS, n) {
        return false;
    }
    for i in 0..n {
        let at = i * HotEntry::WORDS;
        if !(records::follows(hot, HotEntry::WORDS, at) && is_entry(hot, at)) {
            return false;
        }
    }
    true
}

// Where the entry of a key is, or would go.
fn find(hot: &[u64], n: usize, key: u64) -> Found
    ensures { result ≡ find_in 6 1 n key 0 hot.now }
{
    records::find(hot, HotEntry::WORDS, 1, n, key, 0)
}

// The entry of a key.
fn get(hot: &[u64], n: usize, key: u64) -> Option<HotEntry>
    requires { EntriesReady n hot.now }
    ensures { result ≡ Set.get key (Set.entries n hot.now) }
{
    match find(hot, n, key) {
        Found::At(i) => Some(HotEntry::of_words(hot, i * HotEntry::WORDS)),
        _ => None,
    }
}

// Puts an entry under its key, in place of one that has it.
fn put(hot: &mut [u64], n: usize, entry: HotEntry)
    requires entries_ready { EntriesReady n hot.old }
    requires hot_in_bounds { length (Set.put entry (Set.entries n hot.old)) * 6 ≤ length hot.old }
    ensures { hot.new ≡ table (map Set.words (Set.put entry (Set.entries n hot.old)))
        hot.old }
{
    let words = entry.words();
    match find(hot, n, entry.key) {
        Found::At(i) => {
            records::overwrite(hot, HotEntry::WORDS, n, i, &words);
        }
        Found::Gap(i) => {
            records::insert(hot, HotEntry::WORDS, n, i, &words);
        }
        Found::Unfit => {}
    }
}

// Takes the entry of a key out.
fn remove(hot: &mut [u64], n: usize, key: u64)
    requires { EntriesReady n hot.old }
    ensures { hot.new ≡ table (map Set.words (Set.remove key (Set.entries n hot.old)))
        hot.old }
{
    if let Found::At(i) = find(hot, n, key) {
        records::remove(hot, HotEntry::WORDS, n, i);
    }
}

// The entry with the least demand, the smaller key where two have it.
fn weakest(hot: &[u64], n: usize) -> HotEntry
    requires entries_ready { EntriesReady n hot.now }
    requires n_nonzero { 0 < n }
    ensures { Some result ≡ Set.weakest (Set.entries n hot.now) }
{
    let mut least = 0;
    for i in 1..n {
        if float::total_less(
            hot[i * HotEntry::WORDS + 1],
            hot[least * HotEntry::WORDS + 1],
        ) {
            least = i;
        }
    }
    HotEntry::of_words(hot, least * HotEntry::WORDS)
}

impl HotSet {
    // The most keys that a hot set may hold.
    pub const MAX_SIZE: usize = 64;

    // Asks whether there is room, and whether the set could stand in a valid image.
    #[tactic(auto, unfolding(questions::specs::Questions::first_no))]
    pub(crate) fn ask(self, hot: &[u64]) -> Result<(), Refusal>
        ensures { asked result ≡ first_no (Calls.ask_set self hot.now) }
    {
        if !has_room(self.max_size, hot.len()) {
            return Err(Refusal::ShortBuffer);
        }
        if !self.is_valid(hot) {
            return Err(Refusal::Invalid);
        }
        Ok(())
    }

    // Asks the same, and whether the demand is finite with a clear sign bit.
    fn ask_update(self, hot: &[u64], demand_rate: f64) -> Result<(), Refusal>
        ensures { asked result ≡ first_no (Calls.ask_update self hot.now demand_rate) }
    {
        self.ask(hot)?;
        if !float::is_magnitude(demand_rate) {
            return Err(Refusal::Demand);
        }
        Ok(())
    }

    // Whether the set could stand in a valid image, with its entries in these words.
    #[tactic(auto, using(std::proofs::lemmas::Bool::Decides::nat_tests, crate::proofs::HotSet::Answers::by_tests))]
    fn is_valid(self, hot: &[u64]) -> bool
        requires { Calls.room self.max_size ≤ length hot.now }
        ensures { result ≡ Set.is_valid self hot.now }
    {
        is_valid_size(self.max_size) && self.len <= self.max_size && are_valid(hot, self.len)
    }

    // An answer, with the number of entries that the set holds now.
    fn counted(self, is_hot: bool, len: usize) -> Updated
        ensures { result ≡ Calls.counted self is_hot len }
    {
        Updated {
            is_hot,
            set: HotSet { len, ..self },
        }
    }

    // Puts the entry of an absent key in the place of the weakest one, if its demand is high enough.
    fn evict(self, hot: &mut [u64], entry: HotEntry, margin: f64) -> Updated
        requires passed { passes (Calls.ask_set self hot.old) ≡ true }
        requires full { self.len ≡ self.max_size }
        requires absent { Set.get entry.key (Calls.entries_of self hot.old) ≡ None }
        ensures { Evicts margin self entry hot.old result hot.new }
    {
        let n = self.len;
        let least = weakest(hot, n);
        if entry.demand > least.demand * margin {
            remove(hot, n, least.key);
            put(hot, n - 1, entry);
            return self.counted(true, n);
        }
        self.counted(false, n)
    }

    // Takes in a new entry: its key is hot, if it is already or there is a place for it.
    fn promote(self, hot: &mut [u64], entry: HotEntry, margin: f64) -> Updated
        requires passed { passes (Calls.ask_set self hot.old) ≡ true }
        requires warm { entry.cooling_since ≡ None }
        ensures { Promotes margin self entry.key entry.demand entry.primary entry.since hot.old
            result hot.new }
    {
        let n = self.len;
        if let Some(known) = get(hot, n, entry.key) {
            put(hot, n, known.renewed(entry.demand, entry.primary));
            return self.counted(true, n);
        }
        if n < self.max_size {
            put(hot, n, entry);
            return self.counted(true, n + 1);
        }
        self.evict(hot, entry, margin)
    }

    // The demand is not above the threshold: the key cools, and leaves where neither it nor a peer
    // is primary.
    fn below_threshold(
        self,
        hot: &mut [u64],
        key: u64,
        demand_rate: f64,
        now: u64,
        hot_elsewhere: bool,
        margin: f64,
    ) -> Updated
        requires { passes (Calls.ask_set self hot.old) ≡ true }
        ensures { Cools margin self key demand_rate now hot_elsewhere hot.old result hot.new }
    {
        let n = self.len;
        match get(hot, n, key) {
            Some(entry) => {
                let cooled = entry.cool(demand_rate, now, self.cooldown);
                if cooled.primary || hot_elsewhere {
                    put(hot, n, cooled);
                    return self.counted(true, n);
                }
                remove(hot, n, key);
                self.counted(false, n - 1)
            }
            None if hot_elsewhere => {
                self.promote(hot, HotEntry::new(key, demand_rate, false, now), margin)
            }
            None => self.counted(false, n),
        }
    }

    // What `update_with` does once its questions are passed.
    pub(crate) fn take_in(
        self,
        hot: &mut [u64],
        key: u64,
        demand_rate: f64,
        threshold: f64,
        now: u64,
        hot_elsewhere: bool,
        margin: f64,
    ) -> Updated
        requires { passes (Calls.ask_set self hot.old) ≡ true }
        ensures { Updates margin self key demand_rate threshold now hot_elsewhere hot.old result
            hot.new }
    {
        if demand_rate > threshold {
            return self.promote(hot, HotEntry::new(key, demand_rate, true, now), margin);
        }
        self.below_threshold(hot, key, demand_rate, now, hot_elsewhere, margin)
    }

    // A set with no entry yet.
    #[tactic(auto, unfolding(questions::specs::Questions::answer))]
    pub fn new(hot: &[u64], cooldown: u64, max_size: usize) -> Result<HotSet, Refusal>
        ensures { Calls.MadeNew hot.now cooldown max_size result }
    {
        if !has_room(max_size, hot.len()) {
            return Err(Refusal::ShortBuffer);
        }
        if !is_valid_size(max_size) {
            return Err(Refusal::Sizes);
        }
        Ok(HotSet {
            cooldown,
            max_size,
            len: 0,
        })
    }

    // Takes in a key's demand; answers whether the key is hot then.
    pub fn update(
        self,
        hot: &mut [u64],
        key: u64,
        demand_rate: f64,
        threshold: f64,
        now: u64,
    ) -> Result<Updated, Refusal>
        ensures { Calls.UpdatedAlone self hot.old key demand_rate threshold now result hot.new }
    {
        self.update_with(hot, key, demand_rate, threshold, now, false)
    }

    // The same, where a peer may have the key as primary.
    pub fn update_with(
        self,
        hot: &mut [u64],
        key: u64,
        demand_rate: f64,
        threshold: f64,
        now: u64,
        hot_elsewhere: bool,
    ) -> Result<Updated, Refusal>
        ensures { Calls.UpdatedWith self hot.old key demand_rate threshold now hot_elsewhere result
            hot.new }
    {
        self.ask_update(hot, demand_rate)?;
        Ok(self.take_in(
            hot,
            key,
            demand_rate,
            threshold,
            now,
            hot_elsewhere,
            EVICTION_MARGIN,
        ))
    }

    // The entry of a key, if the set has it.
    fn entry_of(self, hot: &[u64], key: u64) -> Result<Option<HotEntry>, Refusal>
        ensures { answer_of result ≡ answer (Calls.ask_set self hot.now)
            (Set.get key (Calls.entries_of self hot.now)) }
    {
        self.ask(hot)?;
        Ok(get(hot, self.len, key))
    }

    // Whether the set has the key.
    pub fn is_hot(self, hot: &[u64], key: u64) -> Result<bool, Refusal>
        ensures { Calls.SaidHot self hot.now key result }
    {
        Ok(self.entry_of(hot, key)?.is_some())
    }

    // When the key came in, if the set has it.
    pub fn hot_since(self, hot: &[u64], key: u64) -> Result<Option<u64>, Refusal>
        ensures { Calls.SaidSince self hot.now key result }
    {
        Ok(self.entry_of(hot, key)?.map(|entry| entry.since))
    }

    // Whether the set has the key as primary.
    pub fn is_primary(self, hot: &[u64], key: u64) -> Result<bool, Refusal>
        ensures { Calls.SaidPrimary self hot.now key result }
    {
        Ok(self.entry_of(hot, key)?.is_some_and(|entry| entry.primary))
    }

    // How many entries there are.
    pub fn len(self, hot: &[u64]) -> Result<usize, Refusal>
        ensures { Calls.SaidLen self hot.now result }
    {
        self.ask(hot)?;
        Ok(self.len)
    }

    // Whether there are none.
    pub fn is_empty(self, hot: &[u64]) -> Result<bool, Refusal>
        ensures { Calls.SaidEmpty self hot.now result }
    {
        self.ask(hot)?;
        Ok(self.len == 0)
    }
}
