// The single-producer sequencer: publishing is in order, so one cursor tells what is open.

#![tactic(auto)]

ghost use Rattle.std.specs.Prelude.{◌+◌, ◌≤◌, true};
ghost use Rattle.sequencer.specs.Claims.{sequencing};
ghost use Rattle.sequencer.specs.Sequencer.{between};
ghost use Rattle.sequencer.proofs.Sets.{between_parts};

use events::refusal::Refusal;
use sequencer::Sequencer;
use sequencer::claims::Claims;

// Sequences from `published` to below the first unclaimed one are open.
#[derive(Drop)]
pub struct Single {
    claims: Claims,
    published: u64,
    ghost begun: { claims.start ≤ published },
    ghost behind: { published ≤ claims.next },
    ghost within: { claims.next ≤ published + claims.slots },
}

#[tactic(auto, using(crate::proofs::Singles::one_cursor))]
impl Sequencer for Single {
    ghost means = { λ q. sequencing true (between q.published q.claims.next) q.claims };

    ghost ordered = { true };

    ghost open_below_next = { λ q s open1. (between_parts q.published q.claims.next s open1).1 };

    fn fresh(capacity: u64, start: u64) -> Result<Single, Refusal> {
        let claims = Claims::new(capacity, start)?;
        Ok(Single {
            published: claims.start,
            claims,
        })
    }

    // What the trait asks for here, the claims tell.
    fn capacity(&self) -> u64 {
        self.claims.slots
    }

    fn start(&self) -> u64 {
        self.claims.start // the first of all
    }

    fn in_order(&self) -> bool {
        true // published in the order of claims
    }

    fn next(&self) -> u64 {
        self.claims.next // the first unclaimed
    }

    fn claim(&mut self, n: u64, gate: u64) -> Result<u64, Refusal> {
        let end = self.claims.end_of(n)?;
        if end.saturating_sub(self.claims.slots) > gate.min(self.published) {
            return Err(Refusal::NoPlace);
        }
        let first = self.claims.next;
        self.claims.next = end;
        Ok(first)
    }

    fn publish(&mut self, lo: u64, hi: u64) -> Result<u64, Refusal> {
        if lo != self.published || hi <= lo || hi > self.claims.next {
            return Err(Refusal::NotOpen);
        }
        self.published = hi;
        Ok(hi)
    }

    fn first(&self, from: u64) -> u64 {
        from.max(self.published).min(self.claims.next)
    }
}
