// A stage: it has figures, and handles one event after another.
ghost use Rattle.std.specs.Prelude.{◌≡◌};
ghost use Rattle.stages.specs.Meaning.{Meaning, after, mark_of};

use crate::figures::Figures;
use crate::marks::Marks;
use events::event::Event;

pub trait Stage<E: Event>: Figures {
    ghost means: { Self → Meaning };

    // Handles the event of a sequence, shown eight marks, and gives a mark. These are three arguments, as a stage is handed
    // them; only the definitions have one record of them.
    fn handle(&mut self, sequence: u64, event: &E, marks: &Marks) -> u32
        ensures grows { means self.new ≡ after (means self.old) (record { sequence = sequence; words = E.Event.words event.now; marks = marks.now }) }
        ensures mark { result ≡ mark_of (means self.old) (record { sequence = sequence; words = E.Event.words event.now; marks = marks.now }) };

    ghost tells: { (s : Self) → (means s).figures ≡ Self.Figures.figures s };
}
