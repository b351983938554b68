// The room machine: what a room keeps of its producers and its stages, and the law of rooms.

#![tactic(auto)]

pub mod law;

// A claim: the sequences from `first` to below `end`; those below `unwritten` are written.
#[derive(Clone, Copy)]
pub struct Claim {
    pub first: u64,
    pub unwritten: u64,
    pub end: u64,
}

// A producer: how far it knows the stages to have come, and its claim, if one is open.
#[derive(Clone, Copy)]
pub struct Producer {
    pub gate: u64,
    pub claim: Option<Claim>,
}

// A stage's place: it may handle what lies below `seen`, handles `at` next, and has committed all below `done`.
#[derive(Clone, Copy)]
pub struct Progress {
    pub seen: u64,
    pub at: u64,
    pub done: u64,
}
