// A room with a list of calls.
ghost use Rattle.std.specs.Prelude.{◌≡◌, map};
ghost use Rattle.events.specs.Refusals.{accepted, left, replied, reply};
ghost use Rattle.machine.specs.Calls.{onwards};
ghost use Rattle.machine.specs.Law.{Lawful, Steady, begun};
ghost use Rattle.machine.specs.Machine as machine;
ghost use Rattle.playout.specs.Plan.{layout};
ghost use Rattle.ring.specs.Memory.{SameMemory};
ghost use Rattle.room.specs.Rooms.{room_of, world_by};
ghost use Rattle.schedule.specs.Schedule.{call_of, ended, events_after, played_by};

use crate::call::{Call, make_call};
use bank::Bank;
use events::event::Event;
use events::refusal::Refusal;
use playout::plan::Plan;
use ring::Ring;
use room::room::Room;
use sequencer::Sequencer;

// What a call answered.
pub type Answer = Result<u64, Refusal>;

// Makes calls one after another, refused ones too, and writes their answers, for which there are as many places: memory of the
// caller's, so they stand beside the calls, as ring and bank beside the room.
pub fn run<S: Sequencer, E: Event, B: Bank<E>>(
    room: &mut Room<S>,
    ring: &mut Ring<'_, E>,
    bank: &mut B,
    calls: &[Call<E>],
    answers: &mut [Answer],
) -> Result<(), Refusal>
    ensures does { let world = world_by S.Sequencer.means E.Event.words B.Bank.stages in record { answer = reply result; after = world room.new ring.new bank.new; answers = map reply answers.new } ≡ ended (world room.old ring.old bank.old) (map (call_of E.Event.words) calls.now) (map reply answers.old) }
    ensures events { ring.new.events.now ≡ left (reply result) ring.old.events.now (events_after calls.now (map reply answers.new) ring.old.events.now) }
    ensures same_memory { SameMemory ring.old ring.new }
{
    if answers.len() != calls.len() {
        return Err(Refusal::SizeMismatch);
    }
    // answers by their index: of what is written through a zipped iter_mut no proof knows the values
    for (k, call) in calls.iter().enumerate() {
        answers[k] = make_call(room, ring, bank, *call);
    }
    Ok(())
}

// Makes a room and runs a list of calls on it. Whatever the calls are, the room is right, and it agrees with any other of
// its plan and bank that has published nothing unequal.
pub fn play<S: Sequencer + Drop, E: Event, B: Bank<E>>(
    plan: Plan,
    capacity: u64,
    producers: usize,
    ring: &mut Ring<'_, E>,
    bank: &mut B,
    calls: &[Call<E>],
    answers: &mut [Answer],
) -> Result<Room<S>, Refusal>
    ensures does { record { room = replied (room_of S.Sequencer.means) result; slots = map E.Event.words ring.new.events.now; marks = ring.new.marks.now; bank = B.Bank.stages bank.new; answers = map reply answers.new } ≡ played_by (machine.room_made S.Sequencer.ordered (layout plan) capacity producers) (map E.Event.words ring.old.events.now) ring.old.marks.now (B.Bank.stages bank.old) (map (call_of E.Event.words) calls.now) (map reply answers.old) }
    ensures lawful { (room : machine.Room) → machine.room_made S.Sequencer.ordered (layout plan) capacity producers ≡ accepted room → Lawful (layout plan) (B.Bank.stages bank.old) capacity (onwards (begun room (map E.Event.words ring.old.events.now) ring.old.marks.now (B.Bank.stages bank.old)) (map (call_of E.Event.words) calls.now)) }
    ensures steady { (room : machine.Room) → replied (room_of S.Sequencer.means) result ≡ accepted room → Steady (layout plan) room }
    ensures events { ring.new.events.now ≡ left (replied (room_of S.Sequencer.means) result) ring.old.events.now (events_after calls.now (map reply answers.new) ring.old.events.now) }
    ensures same_memory { SameMemory ring.old ring.new }
{
    let mut room = Room::new(plan, capacity, producers)?;
    run(&mut room, ring, bank, calls, answers)?;
    Ok(room)
}
