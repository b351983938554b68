// The plan by which stages depend on one another, and the run of events through a bank of them, one after another.

#![tactic(auto)]

pub mod in_order;
pub mod plan;
pub mod reach;
