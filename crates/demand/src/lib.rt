// Demand: the decay weight, estimators and a node's share of a limit.
#![tactic(auto)]

pub mod allocation;
pub mod decay;
pub mod demand;
