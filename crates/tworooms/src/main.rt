// Plays the same cues in two rooms of different capacity, sequencer and producers, under two orders of calls, and prints
// what came of it side by side.

#![tactic(auto)]

use air::Air;
use bank::{Bank, Last, Then};
use cue_stages::check::Check;
use events::cue::Cue;
use events::event::Event;
use multi::Multi;
use playout::plan::Plan;
use ring::Ring;
use room::room::Room;
use schedule::call::Call;
use schedule::play::{Answer, play};
use sequencer::Sequencer;
use single::Single;
use stages::figures::Figures;
use stages::journal::Journal;
use stages::sieve::Sieve;
use std::io;

mod orders;

use orders::{CUE_COUNT, EAST, Order, WEST};

// Check, Air under a sieve that tests Check, and Journal.
type Stages = Then<Check, Then<Sieve<Air>, Last<Journal>>>;

// Air stands behind Check, and Journal behind both.
const MASKS: [u8; 3] = [0b000, 0b001, 0b011];

fn main(rt: HostRuntime) -> io::Result<()> {
    // each room and its answers in memory of their own, written out, since a length cannot be computed from another
    let mut east = new_bank();
    let mut east_answers: [Answer; 49] = [Ok(0); 49];
    let mut west = new_bank();
    let mut west_answers: [Answer; 56] = [Ok(0); 56];
    let mut events = [<Cue as Event>::blank(); 4];
    let mut marks = [0; 32];
    let mut ring = Ring::new(&mut events, &mut marks);
    play_room::<Single>(&rt, &EAST, &mut ring, &mut east, &mut east_answers)?;
    let mut events = [<Cue as Event>::blank(); 8];
    let mut marks = [0; 64];
    let mut ring = Ring::new(&mut events, &mut marks);
    play_room::<Multi>(&rt, &WEST, &mut ring, &mut west, &mut west_answers)?;
    // by number, as the two functions take a stage
    for stage in 0..MASKS.len() {
        print_figures(&rt, stage, &east, &west)?;
        print_marks(&rt, stage, &east_answers, &west_answers)?;
    }
    Ok(())
}

// The stages that asrun has too: each program says its own.
fn new_bank() -> Stages {
    Then {
        stage: Check::new(),
        rest: Then {
            stage: Sieve {
                tested: 0,
                below: Air::new(),
            },
            rest: Last {
                stage: Journal::new(),
            },
        },
    }
}

// Makes a room over the ring, with as many slots, runs the calls, and prints how far it came.
fn play_room<S: Sequencer + Drop>(
    rt: &HostRuntime,
    order: &Order,
    ring: &mut Ring<'_, Cue>,
    bank: &mut Stages,
    answers: &mut [Answer],
) -> io::Result<()> {
    let Order {
        name,
        producers,
        calls,
    } = *order;
    let capacity = ring.slots() as u64;
    let Ok(plan) = Plan::new(0, &MASKS) else {
        return println!(rt; "{name}: no plan");
    };
    match play::<S, Cue, Stages>(plan, capacity, producers, ring, bank, calls, answers) {
        Ok(room) => print_room(rt, name, &room, answers),
        Err(why) => println!(rt; "{name}: refused {why}"),
    }
}

fn print_room<S: Sequencer>(
    rt: &HostRuntime,
    name: &str,
    room: &Room<S>,
    answers: &[Answer],
) -> io::Result<()> {
    let capacity = room.sequencer().capacity();
    let producers = room.producers();
    let next = room.sequencer().next();
    let accepted = answers.iter().filter(|answer| answer.is_ok()).count();
    let calls = answers.len();
    println!(rt;
        "{name}: capacity {capacity}, producers {producers}, next {next}, accepted {accepted} of {calls} calls"
    )
}

// The k-th mark that a stage gave, if it gave as many.
fn mark_given(calls: &[Call<Cue>], answers: &[Answer], stage: usize, k: usize) -> Option<u64> {
    calls
        .iter()
        .zip(answers)
        .filter_map(|(call, answer)| match (*call, *answer) {
            (Call::Handle { stage: i }, Ok(mark)) if i == stage => Some(mark),
            _ => None,
        })
        .nth(k)
}

fn print_figures<B: Bank<Cue>>(
    rt: &HostRuntime,
    stage: usize,
    east: &B,
    west: &B,
) -> io::Result<()> {
    print!(rt; "stage {stage} figures:")?;
    // by number, since a bank gives its figures so
    for k in 0..east.count(stage) {
        print_pair(rt, east.figure(stage, k), west.figure(stage, k))?;
    }
    println!(rt)
}

fn print_marks(rt: &HostRuntime, stage: usize, east: &[Answer], west: &[Answer]) -> io::Result<()> {
    print!(rt; "stage {stage} marks:")?;
    // by number, since either room may have given fewer marks
    for k in 0..CUE_COUNT {
        match (
            mark_given(EAST.calls, east, stage, k),
            mark_given(WEST.calls, west, stage, k),
        ) {
            (Some(here), Some(there)) => print_pair(rt, here, there)?,
            (Some(here), None) => print!(rt; " {here}/-")?,
            (None, Some(there)) => print!(rt; " -/{there}")?,
            (None, None) => {}
        }
    }
    println!(rt)
}

// A number of the east room and one of the west room.
fn print_pair(rt: &HostRuntime, east: u64, west: u64) -> io::Result<()> {
    if east == west {
        print!(rt; " {east}={west}")
    } else {
        print!(rt; " {east}/{west}")
    }
}
