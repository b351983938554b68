// What a stage is, and the stages for events of any kind.

#![tactic(auto)]

pub mod figures;
pub mod journal;
pub mod marks;
pub mod sieve;
pub mod stage;
