// A bank: one stage, or a stage followed by a bank.

#![tactic(auto)]

ghost use Rattle.std.specs.Prelude.{◌≡◌, List, [], ◌∷◌, min, ◌≤◌, length, get_or};
ghost use Rattle.stages.specs.Meaning.{Meaning};
ghost use Rattle.bank.specs.Bank.{figures_of, handled_by, mark_by};

use events::event::Event;
use stages::marks::Marks;
use stages::stage::Stage;

pub trait Bank<E: Event> {
    ghost stages: { Self → List Meaning };

    // How many stages there are, 9 standing for any above 8: a room needs to know no more.
    fn size(&self) -> usize
        ensures { result ≡ min (length (stages self.now)) 9 };

    // How many figures stage i has, 0 if there is no such stage.
    fn count(&self, i: usize) -> usize
        ensures value { result ≡ length (figures_of (stages self.now) i) }
        ensures few { result ≤ 64 };

    // Figure k of stage i, 0 if there is none.
    fn figure(&self, i: usize, k: usize) -> u64
        ensures { result ≡ get_or (figures_of (stages self.now) i) k 0 };

    // Passes an event to stage i alone, and gives its mark; 0 if there is no such stage. The arguments are a stage's.
    fn handle(&mut self, i: usize, sequence: u64, event: &E, marks: &Marks) -> u32
        ensures grows { stages self.new ≡ handled_by (stages self.old) i (record { sequence = sequence; words = E.Event.words event.now; marks = marks.now }) }
        ensures mark { result ≡ mark_by (stages self.old) i (record { sequence = sequence; words = E.Event.words event.now; marks = marks.now }) };
}

// The bank of one stage.
#[derive(Clone, Copy)]
pub struct Last<S> {
    pub stage: S,
}

// A stage followed by a bank: by the rule a bank is one or the other, so a stage is sought by its number.
#[derive(Clone, Copy)]
pub struct Then<S, B> {
    pub stage: S,
    pub rest: B,
}

impl<E: Event, S: Stage<E>> Bank<E> for Last<S> {
    ghost stages = { λ b. S.Stage.means b.stage ∷ [] };

    fn size(&self) -> usize {
        1
    }

    fn count(&self, i: usize) -> usize {
        if i == 0 { self.stage.count() } else { 0 }
    }

    fn figure(&self, i: usize, k: usize) -> u64 {
        if i == 0 { self.stage.figure(k) } else { 0 }
    }

    fn handle(&mut self, i: usize, sequence: u64, event: &E, marks: &Marks) -> u32 {
        if i != 0 {
            return 0;
        }
        self.stage.handle(sequence, event, marks)
    }
}

impl<E: Event, S: Stage<E>, B: Bank<E>> Bank<E> for Then<S, B> {
    ghost stages = { λ b. S.Stage.means b.stage ∷ B.Bank.stages b.rest };

    fn size(&self) -> usize {
        (1 + self.rest.size()).min(9)
    }

    fn count(&self, i: usize) -> usize {
        match i {
            0 => self.stage.count(),
            _ => self.rest.count(i - 1),
        }
    }

    fn figure(&self, i: usize, k: usize) -> u64 {
        match i {
            0 => self.stage.figure(k),
            _ => self.rest.figure(i - 1, k),
        }
    }

    fn handle(&mut self, i: usize, sequence: u64, event: &E, marks: &Marks) -> u32 {
        match i {
            0 => self.stage.handle(sequence, event, marks),
            _ => self.rest.handle(i - 1, sequence, event, marks),
        }
    }
}
