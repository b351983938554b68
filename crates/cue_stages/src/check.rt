// Check: can the cue be played, and does it come in order?
ghost use Rattle.std.specs.Prelude.{◌≡◌};
ghost use Rattle.events.specs.Words.{cue_words};
ghost use Rattle.cue_stages.specs.Check.{check, check_figures, check_mark, fresh_check, last_figure, verdict_mark};
ghost use Rattle.std.proofs.Common.{rules};

use crate::channel::{self, Channel};
use crate::{CHANNELS, LAST_ACTION, LAST_CHANNEL};
use events::cue::Cue;
use stages::figures::Figures;
use stages::marks::Marks;
use stages::stage::Stage;

const LAST_FRAME: u64 = 2_159_999;

// What may be wrong with a cue; the number is the mark that says so.
#[derive(Clone, Copy)]
pub enum Flaw {
    NoSuchChannel = 1,
    NoSuchAction = 2,
    NoSuchFrame = 3,
    Backwards = 4,
}

// The mark that stands for what is found of a cue: 0 if nothing is wrong. A function, since a `Result` is not ours to convert.
pub fn mark(verdict: Result<(), Flaw>) -> u32
    ensures { result ≡ verdict_mark verdict }
{
    match verdict {
        Ok(()) => 0,
        Err(flaw) => flaw as u32,
    }
}

// The counts of good and bad cues, and the last good frame of each channel.
#[derive(Clone, Copy)]
pub struct Check {
    good: u64,
    bad: u64,
    last: [Option<u32>; CHANNELS],
}

impl Check {
    pub fn new() -> Check
        ensures { result ≡ fresh_check }
    {
        Check {
            good: 0,
            bad: 0,
            last: [None; CHANNELS],
        }
    }

    // The first flaw of a cue, if there is one.
    fn judge(&self, cue: &Cue) -> Result<(), Flaw>
        ensures { verdict_mark result ≡ check_mark (check_figures self.now) (cue_words cue.now) }
    {
        if cue.channel > LAST_CHANNEL {
            return Err(Flaw::NoSuchChannel);
        }
        if cue.action > LAST_ACTION {
            return Err(Flaw::NoSuchAction);
        }
        if cue.frame > LAST_FRAME {
            return Err(Flaw::NoSuchFrame);
        }
        let last = self.last[usize::from(cue.channel)];
        if last.is_some_and(|frame| cue.frame < u64::from(frame)) {
            return Err(Flaw::Backwards);
        }
        Ok(())
    }
}

impl Channel for Option<u32> {
    ghost figure = { last_figure };

    fn figure(self) -> u64 {
        self.map_or(0, |frame| u64::from(frame) + 1)
    }
}

impl Figures for Check {
    ghost figures = { check_figures };

    fn count(&self) -> usize {
        2 + self.last.len()
    }

    fn figure(&self, k: usize) -> u64 {
        match k {
            0 => self.good,
            1 => self.bad,
            _ => channel::figure(&self.last, k - 2),
        }
    }
}

impl Stage<Cue> for Check {
    ghost means = { λ s. check (check_figures s) };

    ghost tells = { Prim.search rules };

    #[tactic(auto, using(crate::proofs::Tables::tables))]
    fn handle(&mut self, _sequence: u64, cue: &Cue, _marks: &Marks) -> u32 {
        let verdict = self.judge(cue);
        match verdict {
            Ok(()) => {
                self.good = self.good.wrapping_add(1);
                self.last[usize::from(cue.channel)] = Some(cue.frame as u32);
            }
            Err(_) => self.bad = self.bad.wrapping_add(1),
        }
        mark(verdict)
    }
}
