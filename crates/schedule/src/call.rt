// Calls on a room, as data.
ghost use Rattle.std.specs.Prelude.{◌≡◌};
ghost use Rattle.events.specs.Refusals.{reply};
ghost use Rattle.machine.specs.Calls.{called};
ghost use Rattle.ring.specs.Memory.{SameMemory};
ghost use Rattle.room.specs.Rooms.{world_by};
ghost use Rattle.schedule.specs.Schedule.{call_of, events_called};

use bank::Bank;
use events::event::Event;
use events::refusal::Refusal;
use ring::Ring;
use room::room::Room;
use sequencer::Sequencer;

// One call on a room, by one producer or for one stage. It is data, not a closure, since the law ranges over lists of calls.
#[derive(Clone, Copy)]
pub enum Call<E> {
    Gate { producer: usize },
    Claim { producer: usize, amount: u64 },
    Write { producer: usize, event: E },
    Publish { producer: usize },
    Look { stage: usize },
    Handle { stage: usize },
    Commit { stage: usize },
}

// Makes one call; a handle's mark is its answer. Ring and bank come with each call, since a room keeps neither.
pub fn make_call<S: Sequencer, E: Event, B: Bank<E>>(
    room: &mut Room<S>,
    ring: &mut Ring<'_, E>,
    bank: &mut B,
    call: Call<E>,
) -> Result<u64, Refusal>
    ensures does { let world = world_by S.Sequencer.means E.Event.words B.Bank.stages in record { answer = reply result; after = world room.new ring.new bank.new } ≡ called (world room.old ring.old bank.old) (call_of E.Event.words call) }
    ensures events { ring.new.events.now ≡ events_called call (reply result) ring.old.events.now }
    ensures same_memory { SameMemory ring.old ring.new }
{
    match call {
        Call::Gate { producer } => room.gate(ring, bank, producer),
        Call::Claim { producer, amount } => room.claim(ring, bank, producer, amount),
        Call::Write { producer, event } => room.write(ring, bank, producer, event),
        Call::Publish { producer } => room.publish(ring, bank, producer),
        Call::Look { stage } => room.look(ring, bank, stage),
        Call::Handle { stage } => room.handle(ring, bank, stage).map(u64::from),
        Call::Commit { stage } => room.commit(ring, bank, stage),
    }
}
