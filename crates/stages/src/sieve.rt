// A sieve over any stage, itself a stage: it lets through only what another stage marked 0.
ghost use Rattle.stages.specs.Sieve.{sieved};
ghost use Rattle.std.proofs.Common.{rules};

use crate::figures::Figures;
use crate::marks::Marks;
use crate::stage::Stage;
use events::event::Event;

#[derive(Clone, Copy)]
pub struct Sieve<S> {
    // a number, since one above 7 may be given: then nothing is tested
    pub tested: u8,
    pub below: S,
}

impl<S: Figures> Figures for Sieve<S> {
    ghost figures = { λ s. S.Figures.figures s.below };

    fn count(&self) -> usize {
        self.below.count()
    }

    fn figure(&self, k: usize) -> u64 {
        self.below.figure(k)
    }
}

impl<E: Event, S: Stage<E>> Stage<E> for Sieve<S> {
    ghost means = { λ s. sieved s.tested (S.Stage.means s.below) };

    ghost tells = { Prim.search rules };

    fn handle(&mut self, sequence: u64, event: &E, marks: &Marks) -> u32 {
        match marks.get(usize::from(self.tested)) {
            Some(&mark) if mark != 0 => 0,
            _ => self.below.handle(sequence, event, marks),
        }
    }
}
