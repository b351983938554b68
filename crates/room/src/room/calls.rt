// The seven calls. A room keeps neither ring nor bank: each call takes both, and first refuses them if they are of another
// size than the room's.
ghost use Rattle.std.specs.Prelude.{◌≡◌, ℕ, ◌<◌, ◌≤◌, Bool, true, IfOk, length};
ghost use Rattle.events.specs.Refusals.{replied, reply};
ghost use Rattle.machine.specs.Machine.{fits, least_done, on_claim, on_commit, on_gate, on_handle, on_look, on_publish, on_write};
ghost use Rattle.playout.specs.Plan.{layout};
ghost use Rattle.ring.specs.Memory.{SameMemory};
ghost use Rattle.room.specs.Rooms.{events_written, place_found, side_found, world_by};

use crate::room::Room;
use bank::Bank;
use events::event::Event;
use events::refusal::Refusal;
use limits::SEQUENCE_END;
use machine::{Claim, Producer, Progress};
use ring::Ring;
use sequencer::Sequencer;
use stages::marks::names;

impl<S: Sequencer> Room<S> {
    // Whether ring and bank are of the room's size, with eight marks a slot.
    fn fits<E: Event, B: Bank<E>>(&self, ring: &Ring<'_, E>, bank: &B) -> bool
        ensures value { result ≡ fits (world_by S.Sequencer.means E.Event.words B.Bank.stages self.now ring.now bank.now) }
        ensures some { result ≡ true → 1 ≤ length ring.now.events.now }
    {
        let slots = ring.slots();
        slots as u64 == self.sequencer.capacity()
            && ring.mark_count() == 8 * slots
            && bank.size() == self.plan.stages()
    }

    // What the room keeps of a producer, if ring and bank are of the room's size and there is such a producer.
    fn side<E: Event, B: Bank<E>>(
        &self,
        ring: &Ring<'_, E>,
        bank: &B,
        producer: usize,
    ) -> Result<Producer, Refusal>
        ensures side { replied (λ side. side) result ≡ side_found (world_by S.Sequencer.means E.Event.words B.Bank.stages self.now ring.now bank.now) producer }
        ensures within { IfOk result (λ side. producer < self.now.producers) }
    {
        if !self.fits(ring, bank) {
            return Err(Refusal::SizeMismatch);
        }
        self.sides[..self.producers]
            .get(producer)
            .copied()
            .ok_or(Refusal::NoSuchProducer)
    }

    // What the room keeps of a stage, if ring and bank are of the room's size and there is such a stage. Its own function, since
    // table, number and refusal all differ from a producer's.
    fn place<E: Event, B: Bank<E>>(
        &self,
        ring: &Ring<'_, E>,
        bank: &B,
        stage: usize,
    ) -> Result<Progress, Refusal>
        ensures place { replied (λ place. place) result ≡ place_found (world_by S.Sequencer.means E.Event.words B.Bank.stages self.now ring.now bank.now) stage }
        ensures within { IfOk result (λ place. stage < (layout self.now.plan).stages) }
        ensures slots { IfOk result (λ place. 1 ≤ length ring.now.events.now) }
    {
        if !self.fits(ring, bank) {
            return Err(Refusal::SizeMismatch);
        }
        self.places[..self.plan.stages()]
            .get(stage)
            .copied()
            .ok_or(Refusal::NoSuchStage)
    }

    // The least that any stage of these has committed; the end of all sequences if there is none, as the room machine has it.
    fn least_done<F: Fn(usize) -> bool>(&self, among: F) -> u64
        requires { F.IsAlwaysCallable among }
        ensures { (set : ℕ → Bool) → ((stage : ℕ) (is : Bool) → F.post among stage is → is ≡ set stage) → result ≡ least_done self.now.places set (layout self.now.plan).stages }
    {
        self.places[..self.plan.stages()]
            .iter()
            .enumerate()
            .fold(SEQUENCE_END, |least, (stage, place)| {
                if among(stage) {
                    least.min(place.done)
                } else {
                    least
                }
            })
    }

    // Gate: a producer learns how far all gating stages have committed.
    pub fn gate<E: Event, B: Bank<E>>(
        &mut self,
        ring: &Ring<'_, E>,
        bank: &B,
        producer: usize,
    ) -> Result<u64, Refusal>
        ensures { let world = world_by S.Sequencer.means E.Event.words B.Bank.stages in record { answer = reply result; after = world self.new ring.now bank.now } ≡ on_gate (world self.old ring.now bank.now) producer }
    {
        self.side(ring, bank, producer)?;
        let gate = self.least_done(|stage| self.plan.is_gating(stage));
        self.sides[producer].gate = gate;
        Ok(gate)
    }

    // Claim: a producer with no open claim takes the next sequences, as many as the amount, if they have places up to its gate.
    pub fn claim<E: Event, B: Bank<E>>(
        &mut self,
        ring: &Ring<'_, E>,
        bank: &B,
        producer: usize,
        amount: u64,
    ) -> Result<u64, Refusal>
        ensures { let world = world_by S.Sequencer.means E.Event.words B.Bank.stages in record { answer = reply result; after = world self.new ring.now bank.now } ≡ on_claim (world self.old ring.now bank.now) producer amount }
    {
        let side = self.side(ring, bank, producer)?;
        if side.claim.is_some() {
            return Err(Refusal::ClaimOpen);
        }
        let first = self.sequencer.claim(amount, side.gate)?;
        self.sides[producer].claim = Some(Claim {
            first,
            unwritten: first,
            end: first + amount,
        });
        Ok(first)
    }

    // Write: an event fills the slot of the first unwritten sequence of the producer's claim.
    #[tactic(auto, using(crate::proofs::Words::words_written))]
    pub fn write<E: Event, B: Bank<E>>(
        &mut self,
        ring: &mut Ring<'_, E>,
        bank: &B,
        producer: usize,
        event: E,
    ) -> Result<u64, Refusal>
        ensures does { let world = world_by S.Sequencer.means E.Event.words B.Bank.stages in record { answer = reply result; after = world self.new ring.new bank.now } ≡ on_write (world self.old ring.old bank.now) producer (E.Event.words event) }
        ensures events { ring.new.events.now ≡ events_written (reply result) event ring.old.events.now }
        ensures same_memory { SameMemory ring.old ring.new }
    {
        let side = self.side(ring, bank, producer)?;
        let claim = side.claim.ok_or(Refusal::NoClaim)?;
        let sequence = claim.unwritten;
        if sequence >= claim.end {
            return Err(Refusal::ClaimFull);
        }
        ring.put(sequence, event);
        self.sides[producer].claim = Some(Claim {
            first: claim.first,
            unwritten: sequence + 1,
            end: claim.end,
        });
        Ok(sequence)
    }

    // Publish: all sequences of the producer's full claim are published, and the claim closes.
    pub fn publish<E: Event, B: Bank<E>>(
        &mut self,
        ring: &Ring<'_, E>,
        bank: &B,
        producer: usize,
    ) -> Result<u64, Refusal>
        ensures { let world = world_by S.Sequencer.means E.Event.words B.Bank.stages in record { answer = reply result; after = world self.new ring.now bank.now } ≡ on_publish (world self.old ring.now bank.now) producer }
    {
        let side = self.side(ring, bank, producer)?;
        let claim = side.claim.ok_or(Refusal::NoClaim)?;
        if claim.unwritten < claim.end {
            return Err(Refusal::ClaimNotFull);
        }
        let end = self.sequencer.publish(claim.first, claim.end)?;
        self.sides[producer].claim = None;
        Ok(end)
    }

    // Look: a stage learns how far it may handle: up to what is published, or what the stages in its mask have committed.
    pub fn look<E: Event, B: Bank<E>>(
        &mut self,
        ring: &Ring<'_, E>,
        bank: &B,
        stage: usize,
    ) -> Result<u64, Refusal>
        ensures { let world = world_by S.Sequencer.means E.Event.words B.Bank.stages in record { answer = reply result; after = world self.new ring.now bank.now } ≡ on_look (world self.old ring.now bank.now) stage }
    {
        let place = self.place(ring, bank, stage)?;
        let mask = self.plan.mask(stage);
        let seen = if mask == 0 {
            self.sequencer.first(place.at)
        } else {
            self.least_done(|upstream| names(mask, upstream))
        };
        self.places[stage].seen = seen;
        Ok(seen)
    }

    // Handle: a stage is given the next event that it has seen, with the marks in its reach; its mark is stored.
    pub fn handle<E: Event, B: Bank<E>>(
        &mut self,
        ring: &mut Ring<'_, E>,
        bank: &mut B,
        stage: usize,
    ) -> Result<u32, Refusal>
        ensures does { let world = world_by S.Sequencer.means E.Event.words B.Bank.stages in record { answer = reply result; after = world self.new ring.new bank.new } ≡ on_handle (world self.old ring.old bank.old) stage }
        ensures events { ring.new.events.now ≡ ring.old.events.now }
        ensures same_memory { SameMemory ring.old ring.new }
    {
        let place = self.place(ring, bank, stage)?;
        if place.seen <= place.at {
            return Err(Refusal::NothingSeen);
        }
        let event = ring.event(place.at).unwrap();
        let marks = ring.marks(place.at, self.plan.reach(stage));
        let mark = bank.handle(stage, place.at, event, &marks);
        ring.set_mark(place.at, stage, mark);
        self.places[stage].at = place.at + 1;
        Ok(mark)
    }

    // Commit: all that a stage has handled counts as done.
    pub fn commit<E: Event, B: Bank<E>>(
        &mut self,
        ring: &Ring<'_, E>,
        bank: &B,
        stage: usize,
    ) -> Result<u64, Refusal>
        ensures { let world = world_by S.Sequencer.means E.Event.words B.Bank.stages in record { answer = reply result; after = world self.new ring.now bank.now } ≡ on_commit (world self.old ring.now bank.now) stage }
    {
        let place = self.place(ring, bank, stage)?;
        if place.done == place.at {
            return Err(Refusal::NothingToCommit);
        }
        self.places[stage].done = place.at;
        Ok(place.at)
    }
}
