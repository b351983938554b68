// What every sequencer keeps of its claims.
ghost use Rattle.std.specs.Prelude.{◌≡◌, ◌^◌, ◌≤◌, true};
ghost use Rattle.limits.specs.Capacity.{is_capacity};

use events::refusal::Refusal;
use limits::{SEQUENCE_END, is_capacity};

// The capacity, the first sequence of all, and the first unclaimed one: those from `start` to below `next` are claimed.
#[derive(Drop)]
pub struct Claims {
    pub slots: u64,
    pub start: u64,
    pub next: u64,
    pub ghost capacity: { is_capacity slots ≡ true },
    pub ghost some: { 1 ≤ slots },
    pub ghost most: { slots ≤ 256 },
    pub ghost begun: { start ≤ next },
    pub ghost bounded: { next ≤ 2 ^ 62 },
}

impl Claims {
    ghost use Rattle.std.specs.Prelude.{Bool, false, IfOk};
    ghost use Rattle.events.specs.Refusals.{replied, reply};
    ghost use Rattle.sequencer.specs.Claims.{claim_end, sequencing};
    ghost use Rattle.sequencer.specs.Sequencer.{fresh};

    // No claims yet.
    #[tactic(auto, using(limits::proofs::Capacities::capacity_some, limits::proofs::Capacities::capacity_most))]
    pub fn new(capacity: u64, start: u64) -> Result<Claims, Refusal>
        ensures value { (ordered : Bool) → replied (sequencing ordered (λ _. false)) result ≡ fresh ordered capacity start }
        ensures none { IfOk result (λ claims. claims.next ≡ claims.start) }
    {
        if !is_capacity(capacity) {
            return Err(Refusal::Capacity);
        }
        if start > SEQUENCE_END {
            return Err(Refusal::Start);
        }
        Ok(Claims {
            slots: capacity,
            start,
            next: start,
        })
    }

    // Where a claim of n would end.
    pub fn end_of(&self, n: u64) -> Result<u64, Refusal>
        ensures { reply result ≡ claim_end self.now n }
    {
        if n == 0 || n > self.slots {
            return Err(Refusal::Amount);
        }
        if n > SEQUENCE_END - self.next {
            return Err(Refusal::SequencesExhausted);
        }
        Ok(self.next + n)
    }
}
