// What the peers report, and what a node makes of it.
#![tactic(auto)]

pub mod boundary;
mod peer_changes;
pub mod peer_demand;
mod peer_each;
mod peer_heard;
mod peer_readers;
mod peer_report;
mod peer_runs;
mod peer_scan;
mod peer_state;
mod peer_steps;
pub mod peer_words;
