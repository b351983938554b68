// Runs a ring with each sequencer by hand, and prints what happens.

#![tactic(auto)]

use events::cue::Cue;
use events::event::Event;
use events::refusal::Refusal;
use multi::Multi;
use ring::Ring;
use sequencer::Sequencer;
use sequencer::run::{Step, agree, take_step, take_steps};
use single::Single;
use std::io;

const SLOTS: usize = 4;

// Two claims, published out of order and then in order; the ring runs full, and the gate opens it again.
const STEPS: [Step; 14] = [
    Step::Claim { amount: 2, gate: 0 },
    Step::Claim { amount: 1, gate: 0 },
    Step::Publish { lo: 2, hi: 3 },
    Step::First { from: 0 },
    Step::Publish { lo: 0, hi: 2 },
    Step::First { from: 0 },
    Step::Publish { lo: 2, hi: 3 },
    Step::First { from: 0 },
    Step::Claim { amount: 2, gate: 0 },
    Step::Claim { amount: 1, gate: 0 },
    Step::Claim { amount: 5, gate: 4 },
    Step::Claim { amount: 1, gate: 4 },
    Step::Publish { lo: 3, hi: 4 },
    Step::Claim { amount: 1, gate: 4 },
];

fn main(rt: HostRuntime) -> io::Result<()> {
    println!(rt; "single-producer sequencer")?;
    run::<Single>(&rt)?;
    compare::<Single>(&rt)?;
    println!(rt; "multi-producer sequencer")?;
    run::<Multi>(&rt)?;
    compare::<Multi>(&rt)
}

fn run<S: Sequencer + Drop>(rt: &HostRuntime) -> io::Result<()> {
    let mut events = [<Cue as Event>::blank(); SLOTS];
    let mut marks = [0u32; 8 * SLOTS];
    let mut ring = Ring::new(&mut events, &mut marks);
    let mut sequencer = match S::fresh(SLOTS as u64, 0) {
        Ok(sequencer) => sequencer,
        Err(why) => return print_answer(rt, Err(why)),
    };
    for step in STEPS {
        let answer = take_step(&mut sequencer, step);
        write_claimed(&mut ring, step, answer);
        print_step(rt, step, answer)?;
    }
    print_ring(rt, &ring)
}

// Takes the same steps on two more sequencers that are made alike.
fn compare<S: Sequencer + Drop>(rt: &HostRuntime) -> io::Result<()> {
    if let Ok(mut one) = S::fresh(SLOTS as u64, 0) {
        let accepted = take_steps(&mut one, &STEPS);
        println!(rt; "accepted: {accepted}")?;
    }
    if let (Ok(mut one), Ok(mut other)) = (S::fresh(SLOTS as u64, 0), S::fresh(SLOTS as u64, 0)) {
        let same = agree(&mut one, &mut other, &STEPS);
        println!(rt; "two made alike agree: {same}")?;
    }
    Ok(())
}

// Writes a cue into the slot of each sequence that a claim took: its frame is the sequence.
fn write_claimed(ring: &mut Ring<'_, Cue>, step: Step, answer: Result<u64, Refusal>) {
    if let (Step::Claim { amount, .. }, Ok(first)) = (step, answer) {
        // the sequences of the claim, as a ring finds a slot
        for s in first..first.saturating_add(amount.min(SLOTS as u64)) {
            ring.put(
                s,
                Cue {
                    frame: s,
                    ..<Cue as Event>::blank()
                },
            );
        }
    }
}

// A function, since the step is another crate's and prints with its answer.
fn print_step(rt: &HostRuntime, step: Step, answer: Result<u64, Refusal>) -> io::Result<()> {
    match step {
        Step::Claim { amount, gate } => print!(rt; "claim {amount} with gate {gate}: ")?,
        Step::Publish { lo, hi } => print!(rt; "publish {lo} to {hi}: ")?,
        Step::First { from } => print!(rt; "first from {from}: ")?,
    }
    print_answer(rt, answer)
}

fn print_answer(rt: &HostRuntime, answer: Result<u64, Refusal>) -> io::Result<()> {
    match answer {
        Ok(value) => println!(rt; "{value}"),
        Err(why) => println!(rt; "refused {why}"),
    }
}

fn print_ring(rt: &HostRuntime, ring: &Ring<'_, Cue>) -> io::Result<()> {
    print!(rt; "slots:")?;
    // by sequence, as a ring finds a slot
    for s in 0..SLOTS as u64 {
        if let Some(cue) = ring.event(s) {
            print!(rt; " {}", cue.frame)?;
        }
    }
    println!(rt)
}
