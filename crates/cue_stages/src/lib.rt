// What the stages that read cues share, and the first of them, Check.

#![tactic(auto)]

pub mod channel;
pub mod check;

// Channels are numbered from 0 to the last, and so are the actions that a cue may name.
pub const CHANNELS: usize = 16;

pub const LAST_CHANNEL: u8 = 15;

pub const LAST_ACTION: u8 = 3;
