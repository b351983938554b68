// The making of a plan, and what it tells.
ghost use Rattle.std.specs.Prelude.{◌≡◌};
ghost use Rattle.events.specs.Refusals.{replied};
ghost use Rattle.playout.specs.Plan.{gating, layout, planned};
ghost use Rattle.playout.specs.Reach.{mask_of, reach_of, Reaches};

use crate::plan::Plan;
use crate::reach::{Masks, reach};
use events::refusal::Refusal;
use limits::SEQUENCE_END;
use stages::marks::names;

pub const MOST_STAGES: usize = 8;

impl Plan {
    // A plan of as many stages as there are masks, each naming only lower-numbered stages.
    pub fn new(start: u64, masks: &[u8]) -> Result<Plan, Refusal>
        ensures { replied layout result ≡ planned start masks.now }
    {
        let stages = masks.len();
        if stages == 0 || stages > MOST_STAGES {
            return Err(Refusal::StageCount);
        }
        if start > SEQUENCE_END {
            return Err(Refusal::Start);
        }
        if !masks.iter().enumerate().all(|(i, mask)| mask >> i == 0) {
            return Err(Refusal::StageRecord);
        }
        let mut all: Masks = [0; 8];
        all[..stages].copy_from_slice(masks);
        Ok(Plan {
            start,
            stages,
            masks: all,
        })
    }

    // The first sequence.
    pub fn start(&self) -> u64
        ensures { result ≡ (layout self.now).start }
    {
        self.start
    }

    // How many stages there are.
    pub fn stages(&self) -> usize
        ensures { result ≡ (layout self.now).stages }
    {
        self.stages
    }

    // The reach of stage i, as a mask: every stage in its mask together with their reaches.
    pub fn reach(&self, i: usize) -> u8
        ensures value { result ≡ reach_of (layout self.now).masks i }
        ensures reaches { Reaches (layout self.now).masks i result }
    {
        reach(&self.masks, i)
    }

    // The stages directly upstream of stage i, as a mask.
    pub fn mask(&self, i: usize) -> u8
        ensures { result ≡ mask_of (layout self.now).masks i }
    {
        self.masks.get(i).copied().unwrap_or(0)
    }

    // Whether stage j stands in no mask, so that what it has committed gates the producers.
    pub fn is_gating(&self, j: usize) -> bool
        ensures { result ≡ gating (layout self.now) j }
    {
        !self.masks[..self.stages].iter().any(|mask| names(*mask, j))
    }
}
