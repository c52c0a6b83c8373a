// The hot set.
#![tactic(auto)]

pub mod hot_set;
mod hot_set_each;
