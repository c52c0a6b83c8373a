// A hot set in lent words, of which any three are a value, and the words of its answers.
ghost use Rattle.std.specs.Prelude.{◌≡◌, ◌≤◌, length};
ghost use Rattle.records.specs.Words.{paste};
ghost use Rattle.nultiway.specs.HotCalls.{hot_set_words, hot_set_of, hot_set_left, updated_words};

use crate::answers::Lent;
use crate::values::put;
use hot::hot_set::{HotSet, Updated};
use questions::Refusal;
use records::fields::flag_word;

// The words of a hot set: cooldown, the most entries, and how many are in use.
pub const HOT_SET_WORDS: usize = 3;

// The hot set that the words stand for.
pub(crate) fn hot_set_of(words: &[u64]) -> HotSet
    requires { 3 ≤ length words.now }
    ensures { result ≡ hot_set_of words.now }
{
    HotSet {
        cooldown: words[0],
        max_size: words[1] as usize,
        len: words[2] as usize,
    }
}

// Writes a hot set's words.
pub(crate) fn put_hot_set(words: &mut [u64], set: HotSet)
    requires { 3 ≤ length words.old }
    ensures { words.new ≡ paste 0 (hot_set_words set) words.old }
{
    put(words, &set.words());
}

// A new hot set, or one after many updates.
impl Lent<3> for HotSet {
    ghost words = { hot_set_words };

    #[tactic(auto, unfolding(crate::specs::HotCalls::hot_set_words))]
    fn words(self) -> [u64; 3] {
        [self.cooldown, self.max_size as u64, self.len as u64]
    }
}

// The hot set after an update: as it was where the answer is 'no'.
pub(crate) fn hot_set_left(set: HotSet, said: Result<Updated, Refusal>) -> HotSet
    ensures { result ≡ hot_set_left set said }
{
    match said {
        Err(_) => set,
        Ok(updated) => updated.set,
    }
}

// Whether the key of an update is hot: 0 or 1.
impl Lent<1> for Updated {
    ghost words = { updated_words };

    fn words(self) -> [u64; 1] {
        [flag_word(self.is_hot)]
    }
}
