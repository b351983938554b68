// A cue: one instruction to one channel.
ghost use Rattle.events.specs.Words.{cue_words, blank_cue};
ghost use Rattle.std.proofs.Common.{rules};

use crate::event::Event;

#[derive(Clone, Copy)]
pub struct Cue {
    pub channel: u8,
    // a number, since a cue may come with an action that there is not
    pub action: u8,
    pub item: u32,
    pub frame: u64,
}

impl Event for Cue {
    ghost words = { cue_words };

    ghost blank = { blank_cue };

    ghost few = { Prim.search rules };

    fn count(&self) -> usize {
        4
    }

    fn word(&self, k: usize) -> u64 {
        match k {
            0 => u64::from(self.channel),
            1 => u64::from(self.action),
            2 => u64::from(self.item),
            3 => self.frame,
            _ => 0,
        }
    }

    fn blank() -> Cue {
        Cue {
            channel: 0,
            action: 0,
            item: 0,
            frame: 0,
        }
    }
}
