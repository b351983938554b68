// Lists of calls on a sequencer, and what holds of every such list.
ghost use Rattle.std.specs.Prelude.{◌≡◌, true};
ghost use Rattle.events.specs.Refusals.{reply};
ghost use Rattle.sequencer.specs.Laws.{OpenSet, SameAnswers, Twins};
ghost use Rattle.sequencer.specs.Runs.{accepted_in, after_steps, alike, history, stepped};

use crate::Sequencer;
use events::refusal::Refusal;

// One call on a sequencer. The laws range over lists of calls, so a call is a value.
#[derive(Clone, Copy)]
pub enum Step {
    Claim { amount: u64, gate: u64 },
    Publish { lo: u64, hi: u64 },
    First { from: u64 },
}

// Makes one call.
pub fn take_step<S: Sequencer>(sequencer: &mut S, step: Step) -> Result<u64, Refusal>
    ensures { record { answer = reply result; after = S.Sequencer.means sequencer.new } ≡ stepped (S.Sequencer.means sequencer.old) step }
{
    match step {
        Step::Claim { amount, gate } => sequencer.claim(amount, gate),
        Step::Publish { lo, hi } => sequencer.publish(lo, hi),
        Step::First { from } => Ok(sequencer.first(from)),
    }
}

// Makes calls one after another, refused ones too, and tells how many were accepted.
pub fn take_steps<S: Sequencer>(sequencer: &mut S, steps: &[Step]) -> usize
    ensures after { S.Sequencer.means sequencer.new ≡ after_steps (S.Sequencer.means sequencer.old) steps.now }
    ensures accepted { result ≡ accepted_in (history (S.Sequencer.means sequencer.old) steps.now) }
    ensures same_answers { SameAnswers }
    ensures open_set { OpenSet }
{
    let mut accepted = 0;
    // no filter, since a step is taken for what it leaves
    for step in steps {
        if take_step(sequencer, *step).is_ok() {
            accepted += 1;
        }
    }
    accepted
}

// Makes the same calls on two sequencers, and tells whether they gave the same answers.
pub fn agree<S: Sequencer, T: Sequencer>(one: &mut S, other: &mut T, steps: &[Step]) -> bool
    ensures value { result ≡ alike (S.Sequencer.means one.old) (T.Sequencer.means other.old) steps.now }
    ensures one_after { S.Sequencer.means one.new ≡ after_steps (S.Sequencer.means one.old) steps.now }
    ensures other_after { T.Sequencer.means other.new ≡ after_steps (T.Sequencer.means other.old) steps.now }
    ensures twins { Twins (S.Sequencer.means one.old) (T.Sequencer.means other.old) → result ≡ true }
{
    let mut same = true;
    for step in steps {
        // both make every call, also after a first difference
        same &= take_step(one, *step) == take_step(other, *step);
    }
    same
}
