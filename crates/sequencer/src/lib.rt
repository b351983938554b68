// Sequencers, by their meaning: who may write where, and what may be read.

#![tactic(auto)]

ghost use Rattle.std.specs.Prelude.{◌≡◌, ℕ, ◌^◌, ◌<◌, ◌≤◌, Bool, true};
ghost use Rattle.limits.specs.Capacity.{is_capacity};
ghost use Rattle.events.specs.Refusals.{replied, reply};
ghost use Rattle.sequencer.specs.Sequencer.{Sequencing, claimed, first_open, fresh, published};

use events::refusal::Refusal;

pub mod claims;
pub mod run;

// Hands out sequences to claims, and knows which of them are open, that is, claimed and not published.
pub trait Sequencer: Sized {
    ghost means: { Self → Sequencing };

    // Whether sequences are published in the order in which they were claimed.
    ghost ordered: { Bool };

    // A sequencer with nothing claimed.
    fn fresh(capacity: u64, start: u64) -> Result<Self, Refusal>
        ensures { replied means result ≡ fresh ordered capacity start };

    // With three facts of it, since callers see the trait alone.
    fn capacity(&self) -> u64
        ensures value { result ≡ (means self.now).slots }
        ensures capacity { is_capacity result ≡ true }
        ensures some { 1 ≤ result }
        ensures most { result ≤ 256 };

    // The first sequence of all.
    fn start(&self) -> u64
        ensures value { result ≡ (means self.now).start }
        ensures bound { result ≤ 2 ^ 62 };

    fn in_order(&self) -> bool
        ensures { result ≡ (means self.now).ordered };

    // The first unclaimed sequence.
    fn next(&self) -> u64
        ensures value { result ≡ (means self.now).next }
        ensures bound { result ≤ 2 ^ 62 };

    // Claims the next n sequences, if they have places that the gate leaves; answers the first of them.
    fn claim(&mut self, n: u64, gate: u64) -> Result<u64, Refusal>
        ensures { record { answer = reply result; after = means self.new } ≡ claimed (means self.old) n gate };

    // Publishes the sequences from lo to below hi; answers hi. Two numbers and no range, since any two may be given.
    fn publish(&mut self, lo: u64, hi: u64) -> Result<u64, Refusal>
        ensures { record { answer = reply result; after = means self.new } ≡ published (means self.old) lo hi };

    // The least open sequence not below a number, or next if there is none.
    fn first(&self, from: u64) -> u64
        ensures { result ≡ first_open (means self.now) from };

    // What is open is claimed: it lies below next.
    ghost open_below_next: { (q : Self) (s : ℕ) → (means q).is_open s ≡ true → s < (means q).next };
}
