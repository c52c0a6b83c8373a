// Words that the records of several kinds share.
ghost use Rattle.std.specs.Prelude.{◌≡◌};
ghost use Rattle.records.specs.Fields.{flag_word, is_time, time_words, time_of};

// A flag as a word.
pub fn flag_word(flag: bool) -> u64
    ensures { result ≡ flag_word flag }
{
    u64::from(flag)
}

// Whether a flag and a time are the words of a time that may be missing.
#[tactic(auto, using(crate::proofs::Words::FieldLaws::time_is))]
pub fn is_time(flag: u64, time: u64) -> bool
    ensures { result ≡ is_time flag time }
{
    flag == 1 || flag == 0 && time == 0
}

// The words of a time that may be missing.
pub fn time_words(time: Option<u64>) -> [u64; 2]
    ensures { result ≡ time_words time }
{
    match time {
        None => [0, 0],
        Some(time) => [1, time],
    }
}

// The time of such words.
pub fn time_of(flag: u64, time: u64) -> Option<u64>
    ensures { result ≡ time_of flag time }
{
    if flag == 0 { None } else { Some(time) }
}
