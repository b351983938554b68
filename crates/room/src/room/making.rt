// The making of a room, and what it tells.
ghost use Rattle.std.specs.Prelude.{◌≡◌};
ghost use Rattle.events.specs.Refusals.{replied};
ghost use Rattle.machine.specs.Machine.{room_made};
ghost use Rattle.playout.specs.Plan.{layout};
ghost use Rattle.room.specs.Rooms.{place_in, room_of};

use crate::room::Room;
use events::refusal::Refusal;
use machine::{Producer, Progress};
use playout::plan::Plan;
use sequencer::Sequencer;

const MOST_PRODUCERS: usize = 8;

impl<S: Sequencer + Drop> Room<S> {
    // A room by this plan: its sequencer is fresh from the plan's start, and so is every number in it.
    pub fn new(plan: Plan, capacity: u64, producers: usize) -> Result<Room<S>, Refusal>
        ensures { replied (room_of S.Sequencer.means) result ≡ room_made S.Sequencer.ordered (layout plan) capacity producers }
    {
        let start = plan.start();
        let sequencer = S::fresh(capacity, start)?;
        if producers == 0 || producers > MOST_PRODUCERS || sequencer.in_order() && producers > 1 {
            return Err(Refusal::ProducerCount);
        }
        Ok(Room {
            plan,
            sequencer,
            producers,
            sides: [Producer {
                gate: start,
                claim: None,
            }; 8],
            places: [Progress {
                seen: start,
                at: start,
                done: start,
            }; 8],
        })
    }
}

impl<S> Room<S> {
    // What it was made by.
    pub fn plan(&self) -> &Plan
        ensures { result.now ≡ self.now.plan }
    {
        &self.plan
    }

    // Its sequencer.
    pub fn sequencer(&self) -> &S
        ensures { result.now ≡ self.now.sequencer }
    {
        &self.sequencer
    }

    // How many producers there are.
    pub fn producers(&self) -> usize
        ensures { result ≡ self.now.producers }
    {
        self.producers
    }

    // The place of stage i, if there is such a stage.
    pub fn progress(&self, i: usize) -> Option<Progress>
        ensures { result ≡ place_in (layout self.now.plan).stages self.now.places i }
    {
        self.places[..self.plan.stages()].get(i).copied()
    }
}
