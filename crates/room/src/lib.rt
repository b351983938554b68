// The room: producers and stages on a ring and a bank, by seven calls.

#![tactic(auto)]

pub mod room;
