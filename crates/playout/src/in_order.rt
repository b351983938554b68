// The one-after-another run: what any room is compared with.
ghost use Rattle.std.specs.Prelude.{◌≡◌, ◌+◌, ◌^◌, ◌≤◌, map, OnOk};
ghost use Rattle.events.specs.Refusals.{reply};
ghost use Rattle.bank.specs.Bank.{handled_by, mark_by};
ghost use Rattle.playout.specs.InOrder.{given, passed, played, played_answer};
ghost use Rattle.playout.specs.Plan.{layout};

use crate::plan::Plan;
use bank::Bank;
use events::event::Event;
use events::refusal::Refusal;
use limits::SEQUENCE_END;
use stages::marks::{Marks, show};

// Plays the events from the plan's start on, one after another, and writes the marks that each one got into its row: rows are
// memory of the caller's, so they stand beside the events.
#[tactic(auto, unfolding(crate::specs::InOrder::stages_after))]
pub fn play_in_order<E: Event, B: Bank<E>>(
    plan: &Plan,
    bank: &mut B,
    events: &[E],
    rows: &mut [Marks],
) -> Result<(), Refusal>
    ensures { record { answer = reply result; stages = B.Bank.stages bank.new; rows = rows.new } ≡ played (layout plan.now) (B.Bank.stages bank.old) (map E.Event.words events.now) rows.old }
{
    check_sizes(plan, bank.size(), events.len(), rows.len())?;
    // a row is written by its number: of rows that a `zip` of `iter_mut` wrote, nothing is known once it ends
    for (k, event) in events.iter().enumerate() {
        rows[k] = pass(plan, bank, plan.start() + k as u64, event);
    }
    Ok(())
}

// Whether a bank of this size and as many rows fit the plan and the events, and the sequences suffice.
fn check_sizes(plan: &Plan, size: usize, events: usize, rows: usize) -> Result<(), Refusal>
    ensures answer { reply result ≡ played_answer (layout plan.now) size events rows }
    ensures fits { OnOk result ((size ≡ (layout plan.now).stages) × (rows ≡ events) × ((layout plan.now).start + events ≤ 2 ^ 62)) }
{
    if size != plan.stages() || rows != events {
        return Err(Refusal::SizeMismatch);
    }
    if events as u64 > SEQUENCE_END - plan.start() {
        return Err(Refusal::SequencesExhausted);
    }
    Ok(())
}

// Takes one event through all stages in number order, and gives its row of marks.
#[tactic(auto, unfolding(crate::specs::InOrder::passed))]
fn pass<E: Event, B: Bank<E>>(plan: &Plan, bank: &mut B, sequence: u64, event: &E) -> Marks
    ensures { record { stages = B.Bank.stages bank.new; row = result } ≡ passed (layout plan.now).masks sequence (E.Event.words event.now) (B.Bank.stages bank.old) (layout plan.now).stages }
{
    let mut row = [0; 8];
    // the row is read while it is filled, so no iterator can hold it
    for i in 0..plan.stages() {
        row[i] = pass_stage(plan, bank, i, sequence, event, &row);
    }
    row
}

// Has stage i handle the event, shown the row's marks in its reach, and gives its mark.
fn pass_stage<E: Event, B: Bank<E>>(
    plan: &Plan,
    bank: &mut B,
    i: usize,
    sequence: u64,
    event: &E,
    row: &Marks,
) -> u32
    ensures grows { B.Bank.stages bank.new ≡ handled_by (B.Bank.stages bank.old) i (given (layout plan.now).masks sequence (E.Event.words event.now) i row.now) }
    ensures mark { result ≡ mark_by (B.Bank.stages bank.old) i (given (layout plan.now).masks sequence (E.Event.words event.now) i row.now) }
{
    let marks = show(plan.reach(i), row);
    bank.handle(i, sequence, event, &marks)
}
