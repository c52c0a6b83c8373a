// The archive libnultiway.a: each function of the library under its C name, with its promise.
// Made by tests/library/interface from the sources of the crate nultiway. Changes belong there.
#![tactic(auto)]

mod demand_calls;
mod gcra_calls;
mod helpers;
mod hot_calls;
mod image_calls;
mod limiter_changes;
mod limiter_checks;
mod limiter_lists;
mod limiter_readers;
mod lone_calls;
mod peer_calls;
mod peer_changes;
mod share_calls;
mod version;
