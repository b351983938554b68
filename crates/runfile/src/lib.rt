// The run file: a room, its stages, the steps to take, and the events, as bytes.

#![tactic(auto)]

mod event_record;
pub mod fault;
pub mod header;
pub mod lineup;
