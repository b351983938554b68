// The cues, and for each room the order in which its producers and stages make their calls. Both orders write the same cue
// under each sequence.
use events::cue::Cue;
use schedule::call::Call;

// How many cues there are.
pub const CUE_COUNT: usize = 6;

// A room's name, how many producers it has, and the calls that they and its stages make.
#[derive(Clone, Copy)]
pub struct Order {
    pub name: &'static str,
    pub producers: usize,
    pub calls: &'static [Call<Cue>],
}

// channel 3 takes item 7
const TAKE_7: Cue = Cue {
    channel: 3,
    action: 0,
    item: 7,
    frame: 100,
};

// channel 4 takes item 8
const TAKE_8: Cue = Cue {
    channel: 4,
    action: 0,
    item: 8,
    frame: 100,
};

// channel 3 holds
const HOLD: Cue = Cue {
    channel: 3,
    action: 1,
    item: 0,
    frame: 120,
};

// channel 4 resumes, but at an earlier frame: Check marks it, and Air never gets it
const EARLIER: Cue = Cue {
    channel: 4,
    action: 2,
    item: 0,
    frame: 90,
};

// channel 3 resumes
const RESUME: Cue = Cue {
    channel: 3,
    action: 2,
    item: 0,
    frame: 130,
};

// channel 4 is cleared
const CLEAR: Cue = Cue {
    channel: 4,
    action: 3,
    item: 0,
    frame: 140,
};

// One producer, batches of two: the ring runs full, and the gate opens it again.
pub const EAST: Order = Order {
    name: "east",
    producers: 1,
    calls: &[
        Call::Claim {
            producer: 0,
            amount: 2,
        },
        Call::Write {
            producer: 0,
            event: TAKE_7,
        },
        Call::Claim {
            producer: 0,
            amount: 1,
        },
        Call::Publish { producer: 0 },
        Call::Write {
            producer: 0,
            event: TAKE_8,
        },
        Call::Publish { producer: 0 },
        Call::Look { stage: 2 },
        Call::Handle { stage: 2 },
        Call::Look { stage: 0 },
        Call::Handle { stage: 0 },
        Call::Handle { stage: 0 },
        Call::Commit { stage: 0 },
        Call::Look { stage: 1 },
        Call::Handle { stage: 1 },
        Call::Handle { stage: 1 },
        Call::Commit { stage: 1 },
        Call::Look { stage: 2 },
        Call::Handle { stage: 2 },
        Call::Handle { stage: 2 },
        Call::Commit { stage: 2 },
        Call::Claim {
            producer: 0,
            amount: 2,
        },
        Call::Write {
            producer: 0,
            event: HOLD,
        },
        Call::Write {
            producer: 0,
            event: EARLIER,
        },
        Call::Publish { producer: 0 },
        Call::Claim {
            producer: 0,
            amount: 1,
        },
        Call::Gate { producer: 0 },
        Call::Claim {
            producer: 0,
            amount: 2,
        },
        Call::Write {
            producer: 0,
            event: RESUME,
        },
        Call::Write {
            producer: 0,
            event: CLEAR,
        },
        Call::Publish { producer: 0 },
        Call::Look { stage: 0 },
        Call::Handle { stage: 0 },
        Call::Handle { stage: 0 },
        Call::Handle { stage: 0 },
        Call::Handle { stage: 0 },
        Call::Commit { stage: 0 },
        Call::Look { stage: 1 },
        Call::Handle { stage: 1 },
        Call::Handle { stage: 1 },
        Call::Handle { stage: 1 },
        Call::Handle { stage: 1 },
        Call::Commit { stage: 1 },
        Call::Look { stage: 2 },
        Call::Handle { stage: 2 },
        Call::Handle { stage: 2 },
        Call::Handle { stage: 2 },
        Call::Handle { stage: 2 },
        Call::Handle { stage: 2 },
        Call::Commit { stage: 2 },
    ],
};

// Two producers: the second publishes first, and the stages go on as soon as they can, an event or two at a time.
pub const WEST: Order = Order {
    name: "west",
    producers: 2,
    calls: &[
        Call::Claim {
            producer: 0,
            amount: 2,
        },
        Call::Claim {
            producer: 1,
            amount: 1,
        },
        Call::Write {
            producer: 1,
            event: HOLD,
        },
        Call::Publish { producer: 1 },
        Call::Look { stage: 0 },
        Call::Handle { stage: 0 },
        Call::Write {
            producer: 0,
            event: TAKE_7,
        },
        Call::Write {
            producer: 0,
            event: TAKE_8,
        },
        Call::Publish { producer: 0 },
        Call::Look { stage: 0 },
        Call::Handle { stage: 0 },
        Call::Commit { stage: 0 },
        Call::Look { stage: 1 },
        Call::Handle { stage: 1 },
        Call::Commit { stage: 1 },
        Call::Look { stage: 2 },
        Call::Handle { stage: 2 },
        Call::Claim {
            producer: 1,
            amount: 3,
        },
        Call::Write {
            producer: 1,
            event: EARLIER,
        },
        Call::Handle { stage: 0 },
        Call::Handle { stage: 0 },
        Call::Commit { stage: 2 },
        Call::Commit { stage: 0 },
        Call::Look { stage: 1 },
        Call::Handle { stage: 1 },
        Call::Write {
            producer: 1,
            event: RESUME,
        },
        Call::Handle { stage: 1 },
        Call::Commit { stage: 1 },
        Call::Gate { producer: 0 },
        Call::Look { stage: 2 },
        Call::Handle { stage: 2 },
        Call::Write {
            producer: 1,
            event: CLEAR,
        },
        Call::Publish { producer: 1 },
        Call::Look { stage: 0 },
        Call::Handle { stage: 0 },
        Call::Commit { stage: 0 },
        Call::Handle { stage: 2 },
        Call::Look { stage: 1 },
        Call::Handle { stage: 1 },
        Call::Handle { stage: 0 },
        Call::Handle { stage: 0 },
        Call::Commit { stage: 0 },
        Call::Commit { stage: 1 },
        Call::Commit { stage: 2 },
        Call::Look { stage: 2 },
        Call::Handle { stage: 2 },
        Call::Look { stage: 1 },
        Call::Handle { stage: 1 },
        Call::Handle { stage: 1 },
        Call::Commit { stage: 1 },
        Call::Look { stage: 2 },
        Call::Handle { stage: 2 },
        Call::Handle { stage: 2 },
        Call::Commit { stage: 2 },
        Call::Commit { stage: 2 },
        Call::Handle { stage: 3 },
    ],
};
