// Air: what each channel shows.

#![tactic(auto)]

ghost use Rattle.std.specs.Prelude.{◌≡◌};
ghost use Rattle.std.specs.Result.{result_ok};
ghost use Rattle.air.specs.Air.{action_named, air, air_figures, fresh_air, obeyed, settled, shown_figure};
ghost use Rattle.std.proofs.Common.{rules};

use cue_stages::channel::{self, Channel};
use cue_stages::{CHANNELS, LAST_CHANNEL};
use events::cue::Cue;
use stages::figures::Figures;
use stages::marks::Marks;
use stages::stage::Stage;

// What a channel shows: nothing, or an item that plays or is held.
#[derive(Clone, Copy)]
pub enum Shown {
    Black,
    Playing(u32),
    Held(u32),
}

// What a cue asks for.
#[derive(Clone, Copy)]
pub enum Action {
    Take,
    Hold,
    Resume,
    Clear,
}

// The error of a number that names no action.
#[derive(Clone, Copy)]
pub struct NoSuchAction;

// The action that a cue's number names.
impl TryFrom<u8> for Action {
    type Error = NoSuchAction;

    ghost try_from_gives = { λ number named. result_ok named ≡ action_named number };

    fn try_from(number: u8) -> Result<Action, NoSuchAction> {
        match number {
            0 => Ok(Action::Take),
            1 => Ok(Action::Hold),
            2 => Ok(Action::Resume),
            3 => Ok(Action::Clear),
            _ => Err(NoSuchAction),
        }
    }
}

impl Shown {
    // Does to the channel what the action asks, and tells whether it did: what does not fit is ignored.
    pub fn obey(&mut self, action: Action, item: u32) -> bool
        ensures { (result, self.new) ≡ settled self.old (obeyed self.old action item) }
    {
        match (*self, action) {
            (_, Action::Take) => *self = Shown::Playing(item),
            (Shown::Playing(on), Action::Hold) => *self = Shown::Held(on),
            (Shown::Held(on), Action::Resume) => *self = Shown::Playing(on),
            (_, Action::Clear) => *self = Shown::Black,
            _ => return false,
        }
        true
    }

    // The channel as a figure: 0 for black, 2 × item + 1 playing, 2 × item + 2 held.
    pub fn figure(self) -> u64
        ensures { result ≡ shown_figure self }
    {
        match self {
            Shown::Black => 0,
            Shown::Playing(item) => 2 * u64::from(item) + 1,
            Shown::Held(item) => 2 * u64::from(item) + 2,
        }
    }
}

// The cues that were obeyed, and what each of 16 channels shows.
#[derive(Clone, Copy)]
pub struct Air {
    obeyed: u64,
    channels: [Shown; CHANNELS],
}

impl Air {
    pub fn new() -> Air
        ensures { result ≡ fresh_air }
    {
        Air {
            obeyed: 0,
            channels: [Shown::Black; CHANNELS],
        }
    }
}

// The method above, by the name that a table of channels asks for.
impl Channel for Shown {
    ghost figure = { shown_figure };

    fn figure(self) -> u64 {
        Shown::figure(self)
    }
}

impl Figures for Air {
    ghost figures = { air_figures };

    fn count(&self) -> usize {
        1 + self.channels.len()
    }

    fn figure(&self, k: usize) -> u64 {
        match k {
            0 => self.obeyed,
            _ => channel::figure(&self.channels, k - 1),
        }
    }
}

impl Stage<Cue> for Air {
    ghost means = { λ s. air (air_figures s) };

    ghost tells = { Prim.search rules };

    #[tactic(auto, using(crate::proofs::Channels::channels))]
    fn handle(&mut self, _sequence: u64, cue: &Cue, _marks: &Marks) -> u32 {
        let Ok(action) = Action::try_from(cue.action) else {
            return 1;
        };
        // a test and then the element, since of what `get_mut` lends the proof does not know what it leaves
        if cue.channel > LAST_CHANNEL {
            return 1;
        }
        let channel = &mut self.channels[usize::from(cue.channel)];
        if !channel.obey(action, cue.item) {
            return 1;
        }
        self.obeyed = self.obeyed.wrapping_add(1);
        0
    }
}
