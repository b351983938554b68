// Journal: a fingerprint of everything that was handled.
ghost use Rattle.std.specs.Prelude.{◌≡◌};
ghost use Rattle.stages.specs.Journal.{folded, fresh_journal, journal, journal_figures};
ghost use Rattle.std.proofs.Common.{rules};

use crate::figures::Figures;
use crate::marks::Marks;
use crate::stage::Stage;
use events::event::Event;

#[derive(Clone, Copy)]
pub struct Journal {
    handled: u64,
    digest: u32,
}

// Codes are below this.
const CODES: u64 = 1 << 32;

impl Journal {
    // A journal that has handled nothing.
    pub fn new() -> Journal
        ensures { result ≡ fresh_journal }
    {
        Journal {
            handled: 0,
            digest: 0,
        }
    }
}

// (31c + w) mod 2^32
fn folded(code: u32, word: u64) -> u32
    ensures { result ≡ folded code word }
{
    ((31 * u64::from(code) + word % CODES) % CODES) as u32
}

impl Figures for Journal {
    ghost figures = { journal_figures };

    fn count(&self) -> usize {
        2
    }

    fn figure(&self, k: usize) -> u64 {
        match k {
            0 => self.handled,
            1 => u64::from(self.digest),
            _ => 0,
        }
    }
}

impl<E: Event> Stage<E> for Journal {
    ghost means = { λ s. journal (journal_figures s) };

    ghost tells = { Prim.search rules };

    fn handle(&mut self, sequence: u64, event: &E, _marks: &Marks) -> u32 {
        let start = folded(0, sequence);
        let code = (0..event.count()).fold(start, |code, k| folded(code, event.word(k)));
        self.handled = self.handled.wrapping_add(1);
        self.digest = folded(self.digest, u64::from(code));
        code
    }
}
