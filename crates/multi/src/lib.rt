// The multi-producer sequencer: claims are published in any order, so each slot keeps the round that was published last.

#![tactic(auto)]

ghost use Rattle.std.specs.Prelude.{◌≡◌, ℕ, ◌+◌, ◌-◌, ◌*◌, ◌<◌, length, slice_index};
ghost use Rattle.multi.specs.Rounds.{rounds_after};

use events::refusal::Refusal;
use sequencer::Sequencer;
use sequencer::claims::Claims;

// For each slot the round that was published last; the round of s is s div N, plus 1, and 0 stands for none, by the rule of
// rounds. A table in fixed memory, as large as the largest ring.
pub type Rounds = [u64; 256];

#[derive(Drop)]
pub struct Multi {
    claims: Claims,
    rounds: Rounds,
    ghost table: { length rounds ≡ 256 },
    ghost rounded: { (i : ℕ) → i < claims.slots → slice_index rounds i * claims.slots + i < claims.next + claims.slots },
}

impl Multi {
    ghost use Rattle.std.specs.Prelude.{◌&&◌, nat_lt};
    ghost use Rattle.multi.specs.Open.{oldest_in, open_in};
    ghost use Rattle.sequencer.specs.Sequencer.{all_from, some_below};

    // The first sequence that can be open.
    fn oldest(&self) -> u64
        ensures { result ≡ oldest_in self.now }
    {
        let claims = &self.claims;
        claims.start.max(claims.next.saturating_sub(claims.slots))
    }

    fn is_open(&self, s: u64) -> bool
        ensures { result ≡ open_in self.now s }
    {
        if s < self.oldest() || s >= self.claims.next {
            return false;
        }
        self.rounds[(s % self.claims.slots) as usize] != s / self.claims.slots + 1
    }

    // Whether some sequence below a number is open.
    fn any_open_below(&self, floor: u64) -> bool
        ensures { result ≡ some_below (open_in self.now) floor }
    {
        (self.oldest()..floor).any(|s| self.is_open(s))
    }

    // Whether the sequences from lo to below hi are some, and all of them open.
    fn all_open(&self, lo: u64, hi: u64) -> bool
        ensures { result ≡ (nat_lt lo hi && all_from (open_in self.now) lo (hi - lo)) }
    {
        // the window first, so that what reaches past it is refused without a scan
        lo < hi
            && hi <= self.claims.next
            && lo >= self.oldest()
            && (lo..hi).all(|s| self.is_open(s))
    }
}

// Leaves the rounds of the sequences from lo to below hi in their slots.
#[tactic(auto, using(crate::proofs::Windows::after_none, crate::proofs::Windows::after_more))]
fn publish_rounds(rounds: &mut Rounds, claims: &Claims, lo: u64, hi: u64)
    ensures { rounds.new ≡ rounds_after claims.now.slots rounds.old lo (hi - lo) }
{
    let slots = claims.slots; // read once, since each turn writes
    // a sequence finds its slot by division, so no iterator over the slots serves
    for s in lo..hi {
        rounds[(s % slots) as usize] = s / slots + 1;
    }
}

impl Sequencer for Multi {
    ghost use Rattle.std.specs.Prelude.{false};
    ghost use Rattle.multi.specs.Open.{open_in};
    ghost use Rattle.multi.specs.Within.{open_window};
    ghost use Rattle.sequencer.specs.Claims.{sequencing};

    ghost means = { λ q. sequencing false (open_in q) q.claims };

    ghost ordered = { false };

    ghost open_below_next = { λ q s open1. (open_window q.claims.slots q.claims.start q.claims.next q.rounds s open1).1 };

    fn fresh(capacity: u64, start: u64) -> Result<Multi, Refusal> {
        let claims = Claims::new(capacity, start)?;
        Ok(Multi {
            claims,
            rounds: [0; 256],
        })
    }

    // What the trait asks for here, the claims tell.
    fn capacity(&self) -> u64 {
        self.claims.slots
    }

    fn start(&self) -> u64 {
        self.claims.start // the first of all
    }

    fn in_order(&self) -> bool {
        false // published in any order
    }

    fn next(&self) -> u64 {
        self.claims.next // the first unclaimed
    }

    fn claim(&mut self, n: u64, gate: u64) -> Result<u64, Refusal> {
        let end = self.claims.end_of(n)?;
        let floor = end.saturating_sub(self.claims.slots);
        if floor > gate || self.any_open_below(floor) {
            return Err(Refusal::NoPlace);
        }
        let first = self.claims.next;
        self.claims.next = end;
        Ok(first)
    }

    fn publish(&mut self, lo: u64, hi: u64) -> Result<u64, Refusal> {
        if !self.all_open(lo, hi) {
            return Err(Refusal::NotOpen);
        }
        publish_rounds(&mut self.rounds, &self.claims, lo, hi);
        Ok(hi)
    }

    fn first(&self, from: u64) -> u64 {
        let next = self.claims.next;
        let mut s = from.max(self.oldest());
        // a loop that yields a sequence by `break`: the project keeps this form here
        loop {
            if s >= next {
                break next;
            }
            if self.is_open(s) {
                break s;
            }
            s += 1;
        }
    }
}
