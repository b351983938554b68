// Why a call is turned down: one table for the whole library.
ghost use Rattle.std.specs.Prelude.{◌≡◌, Some};
ghost use Rattle.events.specs.Refusals.{number, refusal_text};

use std::error::Error;
use std::fmt;

// Each reason, with its number in the table.
#[derive(Clone, Copy, Debug, PartialEq, Eq)]
pub enum Refusal {
    FileSize = 1,
    EventKind = 2,
    Capacity = 3,
    StageCount = 4,
    SequencerKind = 5,
    ProducerCount = 6,
    Start = 7,
    Section = 8,
    StageRecord = 9,
    PacketRange = 10,
    SizeMismatch = 11,
    CallCode = 12,
    NoSuchProducer = 13,
    NoSuchStage = 14,
    NoSuchEvent = 15,
    ClaimOpen = 16,
    Amount = 17,
    SequencesExhausted = 18,
    NoPlace = 19,
    NoClaim = 20,
    ClaimFull = 21,
    ClaimNotFull = 22,
    NothingSeen = 23,
    NothingToCommit = 24,
    NotOpen = 25,
}

impl Refusal {
    // The reason's number in the table; a method, since a bare conversion would not say which number it gives.
    pub fn number(self) -> u8
        ensures { result ≡ number self }
    {
        self as u8
    }
}

// A refusal prints as its number.
impl fmt::Display for Refusal {
    ghost output = { λ why. Some (refusal_text why) };

    fn fmt<W: fmt::Write>(&self, f: &mut fmt::Formatter<W>) -> fmt::Result {
        let number = self.number();
        write!(f, "{number}")
    }
}

impl Error for Refusal {}
