// The as-run record of a day's cues, as text.
ghost use Rattle.std.specs.Prelude.{◌≡◌, ◌^◌, ◌≤◌, ◌++◌, map, length, IfOk, Some, string_bytes, OnOk};
ghost use Rattle.asrun.specs.AsRun.{cue_line, cue_lines, fault_text, figure_fields, record_of, stage_line, Tells};
ghost use Rattle.asrun.specs.declared.report.Fault.TheVariants.{OutOfMemory};
ghost use Rattle.events.specs.Records.{cue_at};
ghost use Rattle.events.specs.Words.{cue_words};

use air::Air;
use bank::{Bank, Last, Then};
use cue_stages::check::Check;
use events::cue::Cue;
use events::event::Event;
use events::record::{CUE_SIZE, cue_at};
use playout::in_order::play_in_order;
use playout::plan::Plan;
use stages::figures::Figures;
use stages::journal::Journal;
use stages::marks::Marks;
use stages::sieve::Sieve;
use std::alloc::{AllocError, Global};
use std::error::Error;
use std::fmt;

// Why there is no record.
#[derive(Debug, Drop)]
pub enum Fault {
    // The last record has only `rest` bytes, after `whole` whole ones.
    CutShort { whole: usize, rest: usize },
    OutOfMemory,
}

impl From<AllocError> for Fault {
    ghost from_gives = { λ _ r. r ≡ OutOfMemory };

    fn from(_: AllocError) -> Fault {
        Fault::OutOfMemory
    }
}

impl fmt::Display for Fault {
    ghost output = { λ f. Some (fault_text f) };

    fn fmt<W: fmt::Write>(&self, f: &mut fmt::Formatter<W>) -> fmt::Result {
        match self {
            Fault::CutShort { whole, rest } => write!(
                f,
                "record {whole} is cut short: {rest} of 16 bytes"
            ),
            Fault::OutOfMemory => write!(f, "out of memory"),
        }
    }
}

impl Error for Fault {}

// One line for a cue: its sequence, its words, and the marks of the three stages.
fn put_cue(out: &mut String, sequence: usize, cue: &Cue, row: &Marks) -> Result<(), AllocError>
    ensures { OnOk result (string_bytes out.new ≡ string_bytes out.old ++ cue_line sequence (cue_words cue.now) row.now) }
{
    let Cue {
        channel,
        action,
        item,
        frame,
    } = *cue;
    let [check, air, journal, ..] = *row;
    writeln!(
        out,
        "{sequence} {channel} {action} {item} {frame} {check} {air} {journal}"
    )
}

// The figures, each after a space.
fn put_figures<F: Figures>(out: &mut String, reported: &F) -> Result<(), AllocError>
    ensures { OnOk result (string_bytes out.new ≡ string_bytes out.old ++ figure_fields (F.Figures.figures reported.now)) }
{
    // by number, since a stage gives its figures so
    for k in 0..reported.count() {
        write!(out, " {}", reported.figure(k))?;
    }
    Ok(())
}

// One line for a stage: its number and its figures.
fn put_stage<F: Figures>(out: &mut String, number: u8, stage: &F) -> Result<(), AllocError>
    ensures { OnOk result (string_bytes out.new ≡ string_bytes out.old ++ stage_line number (F.Figures.figures stage.now)) }
{
    write!(out, "stage {number}")?;
    put_figures(out, stage)?;
    writeln!(out)
}

// One line for each cue; its marks stand in memory of their own, which the run was lent.
fn put_cues(out: &mut String, cues: &[Cue], rows: &[Marks]) -> Result<(), AllocError>
    requires { length rows.now ≡ length cues.now }
    ensures { OnOk result (string_bytes out.new ≡ string_bytes out.old ++ cue_lines (map cue_words cues.now) rows.now (length cues.now)) }
{
    for (sequence, (cue, row)) in cues.iter().zip(rows).enumerate() {
        put_cue(out, sequence, cue, row)?;
    }
    Ok(())
}

// The cues of the records.
fn read_cues(heap: Global, records: &[[u8; CUE_SIZE]]) -> Result<Vec<Cue>, AllocError>
    ensures { IfOk result (λ v. v.items ≡ map (λ bytes. cue_at bytes 0) records.now) }
{
    records.iter().map(read_cue).collect(heap)
}

fn read_cue(bytes: &[u8; CUE_SIZE]) -> Cue
    ensures { result ≡ cue_at bytes.now 0 }
{
    cue_at(bytes, 0).unwrap()
}

// Plays the cues one after another from sequence 0 and writes their record; the rows are for the marks.
fn put_record(out: &mut String, cues: &[Cue], rows: &mut [Marks]) -> Result<(), AllocError>
    requires same_length { length rows.old ≡ length cues.now }
    requires bounded { length cues.now ≤ 2 ^ 62 }
    ensures { OnOk result (string_bytes out.new ≡ string_bytes out.old ++ record_of (map cue_words cues.now)) }
{
    let mut bank = Then {
        stage: Check::new(),
        rest: Then {
            stage: Sieve {
                tested: 0,
                below: Air::new(),
            },
            rest: Last {
                stage: Journal::new(),
            },
        },
    };
    let plan = Plan::new(0, &[0, 0b1, 0]).unwrap();
    play_in_order(&plan, &mut bank, cues, rows).unwrap();
    put_cues(out, cues, rows)?;
    put_stage(out, 0, &bank.stage)?;
    put_stage(out, 1, &bank.rest.stage)?;
    put_stage(out, 2, &bank.rest.rest.stage)
}

// The as-run record of a day's cues, one record of 16 bytes each, played one after another from sequence 0.
pub fn as_run(heap: Global, input: &[u8]) -> Result<String, Fault>
    ensures { Tells input.now result }
{
    let (records, cut) = input.as_chunks::<CUE_SIZE>();
    if !cut.is_empty() {
        return Err(Fault::CutShort {
            whole: records.len(),
            rest: cut.len(),
        });
    }
    let cues = read_cues(heap, records)?;
    let mut rows = vec![in heap; [0u32; 8]; cues.len()]?;
    let mut out = String::new(heap);
    put_record(&mut out, &cues, &mut rows)?;
    Ok(out)
}
