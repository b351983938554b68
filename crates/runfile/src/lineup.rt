// The stage records of a run file: what each stage is, and which stages stand upstream of it.
ghost use Rattle.std.specs.Prelude.{◌≡◌, ◌+◌, ◌*◌, ◌<◌, ◌≤◌, length};
ghost use Rattle.runfile.specs.Faults.{told};
ghost use Rattle.runfile.specs.Lineup.{lineup_of, stage_at, work_of};

use crate::fault::Fault;
use crate::header::{EventKind, Section};
use events::refusal::Refusal;
use playout::reach::{Masks, reach};
use stages::marks::names;

// What a stage is made to do.
#[derive(Clone, Copy, Debug, PartialEq, Eq)]
pub enum Work {
    Journal,
    Check,
    Air,
}

// A stage, and if a sieve stands over it, the stage whose mark that tests.
#[derive(Clone, Copy, Debug, PartialEq, Eq)]
pub struct Task {
    pub work: Work,
    pub tested: Option<u8>,
}

// A stage record: the stage, and its mask.
#[derive(Clone, Copy)]
pub struct StageRecord {
    pub task: Task,
    pub mask: u8,
}

// All stages, in tables of eight: the masks stand alone, as a plan takes them.
#[derive(Clone, Copy)]
pub struct Lineup {
    pub tasks: [Task; 8],
    pub masks: Masks,
}

// What a kind in a stage record stands for. Check and Air need cues, so its number alone converts to nothing.
fn work_of(kind: EventKind, number: u8) -> Option<Work>
    ensures { result ≡ work_of kind number }
{
    match (kind, number) {
        (_, 1) => Some(Work::Journal),
        (EventKind::Cues, 2) => Some(Work::Check),
        (EventKind::Cues, 3) => Some(Work::Air),
        _ => None,
    }
}

// The record of stage i, which begins at a place, after the masks of the stages before it.
fn read_stage(
    file: &[u8],
    at: usize,
    i: usize,
    kind: EventKind,
    masks: &Masks,
) -> Result<StageRecord, Fault>
    requires within { at + 4 ≤ length file.now }
    requires eight { i < 8 }
    ensures { told result ≡ stage_at file.now kind masks.now i at }
{
    let fault = Fault {
        why: Refusal::StageRecord,
        place: at,
    };
    let [code, mask, tested, last] = *file[at..at + 4].as_array::<4>().unwrap();
    // two bytes, as the file has it; from here on an Option
    let sieved = code >= 16;
    let number = if sieved { code - 16 } else { code };
    let work = work_of(kind, number).ok_or(fault)?;
    if mask >> i != 0 || last != 0 {
        return Err(fault);
    }
    if sieved {
        let mut all = *masks;
        all[i] = mask;
        if !names(reach(&all, i), usize::from(tested)) {
            return Err(fault);
        }
    } else if tested != 0 {
        return Err(fault);
    }
    let tested = sieved.then_some(tested);
    Ok(StageRecord {
        task: Task { work, tested },
        mask,
    })
}

// The stage records of a section. That they lie in the file is asked of each reader by itself, since each reads another size.
#[tactic(auto, using(crate::proofs::Records::lineup_step), unfolding(crate::specs::Lineup::lineup_from))]
pub(crate) fn read_lineup(file: &[u8], section: Section, kind: EventKind) -> Result<Lineup, Fault>
    requires within { section.start + section.count * 4 ≤ length file.now }
    requires eight { section.count ≤ 8 }
    ensures { told result ≡ lineup_of file.now kind section.start section.count }
{
    let mut lineup = Lineup {
        tasks: [Task {
            work: Work::Journal,
            tested: None,
        }; 8],
        masks: [0; 8],
    };
    // by number, since a record's place is wanted for its fault
    for i in 0..section.count {
        let record = read_stage(file, section.start + 4 * i, i, kind, &lineup.masks)?;
        lineup.tasks[i] = record.task;
        lineup.masks[i] = record.mask;
    }
    Ok(lineup)
}
