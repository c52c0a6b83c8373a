// The library for programs in other languages: each function under a C name, its values in words
// that the caller lends. A function answers 0, or the number of the first question that was
// answered 'no'; then no lent word has changed. The number of a refusal is what C reads, so the
// functions that ask about lent words answer it as a number, 0 for none, too.
#![tactic(auto)]

mod answers;
pub mod demand_calls;
pub mod gcra_calls;
pub mod helpers;
mod hot_answers;
pub mod hot_calls;
pub mod image_calls;
pub mod limiter_changes;
pub mod limiter_checks;
pub mod limiter_lists;
pub mod limiter_readers;
pub mod lone_calls;
mod peer_answers;
pub mod peer_calls;
pub mod peer_changes;
mod report;
pub mod share_calls;
mod values;
pub mod version;
