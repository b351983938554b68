// The ring: slots for events, with eight marks each, in memory that its maker lends.

#![tactic(auto)]

ghost use Rattle.std.specs.Prelude.{◌≡◌, ◌%◌, ◌^◌, ◌<◌, ◌==◌, ◌&&◌, Some, None, if◌then◌else◌, length, nat_lt, slice_set};
ghost use Rattle.events.specs.Refusals.{reply};
ghost use Rattle.ring.specs.Memory.{SameMemory};
ghost use Rattle.ring.specs.Ring.{checked, event_at, is_mark, made_events, made_marks, mark_at, marked, place, row_at, written};
ghost use Rattle.stages.specs.Marks.{shown};
ghost use Rattle.std.specs.Option.{option_map};

use events::event::Event;
use events::refusal::Refusal;
use limits::is_capacity;
use stages::marks::{Marks, show};
use std::array;

// Over the maker's slice of events, one a slot, and slice of marks, eight a slot. Two slices, since its maker lends two.
#[derive(Drop)]
pub struct Ring<'a, E> {
    events: &'a mut [E],
    marks: &'a mut [u32],
}

// Whether memory fits a ring: as many slots as a capacity, and eight marks a slot.
#[tactic(auto, using(limits::proofs::Capacities::capacity_most))]
pub fn check(slots: usize, marks: usize) -> Result<(), Refusal>
    ensures { reply result ≡ checked slots marks }
{
    if !is_capacity(slots as u64) {
        return Err(Refusal::Capacity);
    }
    if marks != 8 * slots {
        return Err(Refusal::SizeMismatch);
    }
    Ok(())
}

impl<'a, E: Event> Ring<'a, E> {
    // A ring over this memory, with every slot blank and every mark 0. Memory that does not fit stays as it is.
    pub fn new(events: &'a mut [E], marks: &'a mut [u32]) -> Ring<'a, E>
        ensures events { result.events.now ≡ made_events E.Event.blank events.old marks.old }
        ensures marks { result.marks.now ≡ made_marks events.old marks.old }
        ensures same_events { result.events.ghost_name ≡ events.entry.ghost_name }
        ensures same_marks { result.marks.ghost_name ≡ marks.entry.ghost_name }
    {
        if check(events.len(), marks.len()).is_ok() {
            // `fill` asks that a copy of an event cannot fail, which no event kind says
            events.fill_with(|| E::blank());
            marks.fill(0);
        }
        Ring { events, marks }
    }

    // How many slots there are.
    pub fn slots(&self) -> usize
        ensures { result ≡ length self.now.events.now }
    {
        self.events.len()
    }

    // How many marks there are.
    pub fn mark_count(&self) -> usize
        ensures { result ≡ length self.now.marks.now }
    {
        self.marks.len()
    }

    // The event in the slot of a sequence; nothing if there are no slots.
    pub fn event(&self, s: u64) -> Option<&E>
        ensures { option_map (λ x. x.now) result ≡ event_at E.Event.blank self.now.events.now s }
    {
        self.events.get(self.slot(s)?)
    }

    // Writes an event into the slot of a sequence.
    pub fn put(&mut self, s: u64, event: E)
        ensures events { self.new.events.now ≡ written self.old.events.now s event }
        ensures marks { self.new.marks.now ≡ self.old.marks.now }
        ensures same_memory { SameMemory self.old self.new }
    {
        if let Some(slot) = self.slot(s) {
            write_slot(self.events, slot, event);
        }
    }

    // Mark i of the slot of a sequence; 0 if there is none.
    pub fn mark(&self, s: u64, i: usize) -> u32
        ensures { result ≡ mark_at (length self.now.events.now) self.now.marks.now s i }
    {
        self.place(s, i)
            .and_then(|at| self.marks.get(at))
            .copied()
            .unwrap_or(0)
    }

    // Writes mark i of the slot of a sequence, if there is such a mark.
    pub fn set_mark(&mut self, s: u64, i: usize, mark: u32)
        ensures marks { self.new.marks.now ≡ marked (length self.old.events.now) self.old.marks.now s i mark }
        ensures events { self.new.events.now ≡ self.old.events.now }
        ensures same_memory { SameMemory self.old self.new }
    {
        // an index, since the slice is handed to the function that writes
        if let Some(at) = self.place(s, i)
            && at < self.marks.len()
        {
            write_slot(self.marks, at, mark);
        }
    }

    // The marks of the slot of a sequence, those of the stages in a set, and 0 elsewhere.
    pub fn marks(&self, s: u64, among: u8) -> Marks
        ensures { result ≡ shown among (row_at (length self.now.events.now) self.now.marks.now s) }
    {
        let row = array::from_fn(|i| self.mark(s, i));
        show(among, &row)
    }

    // The slot of a sequence, if there are slots.
    fn slot(&self, s: u64) -> Option<usize>
        ensures { result ≡ (if length self.now.events.now == 0 then None else Some (s % length self.now.events.now)) }
    {
        (s as usize).checked_rem(self.events.len())
    }

    // Where mark i of the slot of a sequence stands, if there is such a mark and it is not past all memory.
    fn place(&self, s: u64, i: usize) -> Option<usize>
        ensures { let at = place (length self.now.events.now) s i in result ≡ (if is_mark (length self.now.events.now) i && nat_lt at (2 ^ 64) then Some at else None) }
    {
        if i > 7 {
            return None;
        }
        self.slot(s)?.checked_mul(8)?.checked_add(i)
    }
}

// Writes an element of a slice: a ring hands its slices to it, the one place where a slot of an event or a mark is written.
fn write_slot<T: Copy>(slots: &mut [T], k: usize, value: T)
    requires { k < length slots.old }
    ensures { slots.new ≡ slice_set slots.old k value }
{
    slots[k] = value;
}
