// What passes through the ring: events by their words, the two kinds of them, their records, and the reasons why a call is turned down.

#![tactic(auto)]

pub mod cue;
pub mod event;
pub mod packet;
pub mod record;
pub mod refusal;
