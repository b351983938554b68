// A room. The type stands alone in this file, so that definitions may name it; its methods are in the modules below.
ghost use Rattle.std.specs.Prelude.{◌≡◌, ◌≤◌, length};

use machine::{Producer, Progress};
use playout::plan::Plan;

mod calls;
mod making;

// A plan, a sequencer, and what the room keeps of each producer and each stage; the tables are used as far as there are
// producers and stages.
// The tables are of eight, since those of the room machine are, whose room this one is.
#[derive(Drop)]
pub struct Room<S> {
    plan: Plan,
    sequencer: S,
    producers: usize,
    sides: [Producer; 8],
    places: [Progress; 8],
    ghost few: { producers ≤ 8 },
    ghost eight_sides: { length sides ≡ 8 },
    ghost eight_places: { length places ≡ 8 },
}
