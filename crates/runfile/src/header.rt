// The header of a run file: 48 bytes.
ghost use Rattle.std.specs.Prelude.{◌≡◌, ◌+◌, ◌<◌, ◌≤◌, length, OnOk};
ghost use Rattle.events.specs.Records.{u32_at, u64_at};
ghost use Rattle.events.specs.Refusals.{reply};
ghost use Rattle.runfile.specs.Header.{capacity_of, event_kind, event_size, header_of, kind_of, producers_of, section_of, sequencer_kind, sequencer_of, sized, stage_count_of, start_of};
ghost use Rattle.runfile.specs.Faults.{told};

use crate::event_record::EventRecord;
use crate::fault::{Fault, refuse};
use events::cue::Cue;
use events::packet::Packet;
use events::record::{u32_at, u64_at};
use events::refusal::Refusal;
use limits::{SEQUENCE_END, is_capacity};

pub const HEADER_SIZE: usize = 48;

pub const MOST_BYTES: usize = 65_536;

// What the events are.
#[derive(Clone, Copy, Debug, PartialEq, Eq)]
pub enum EventKind {
    Cues,
    Packets,
}

// Which sequencer the room has.
#[derive(Clone, Copy, Debug, PartialEq, Eq)]
pub enum SequencerKind {
    Single,
    Multi,
}

// Where records begin, and how many there are.
#[derive(Clone, Copy, Debug, PartialEq, Eq)]
pub struct Section {
    pub start: usize,
    pub count: usize,
}

#[derive(Clone, Copy)]
pub struct Header {
    pub kind: EventKind,
    pub capacity: u64,
    pub sequencer: SequencerKind,
    pub producers: usize,
    pub start: u64,
    pub stages: Section,
    pub steps: Section,
    pub events: Section,
}

impl Header {
    // Reads the header, and tests where the sections lie.
    pub fn read(file: &[u8]) -> Result<Header, Fault>
        ensures { told result ≡ header_of file.now }
    {
        check_size(file)?;
        let fields = Fields { file };
        let kind = fields.kind()?;
        let capacity = fields.capacity()?;
        let stage_count = fields.stage_count()?;
        let sequencer = fields.sequencer()?;
        let producers = fields.producers(sequencer)?;
        let start = fields.start()?;
        let stages = fields.section(24, stage_count, 4)?;
        let steps = fields.section(28, fields.number(16), 4)?;
        let events = fields.section(32, fields.number(20), kind.size())?;
        Ok(Header {
            kind,
            capacity,
            sequencer,
            producers,
            start,
            stages,
            steps,
            events,
        })
    }
}

impl EventKind {
    // How many bytes a record has.
    pub fn size(self) -> usize
        ensures { result ≡ event_size self }
    {
        match self {
            EventKind::Cues => Cue::SIZE,
            EventKind::Packets => Packet::SIZE,
        }
    }
}

// The kind's number in the header.
impl TryFrom<u32> for EventKind {
    type Error = Refusal;

    ghost try_from_gives = { λ number r. reply r ≡ event_kind number };

    fn try_from(number: u32) -> Result<EventKind, Refusal> {
        match number {
            1 => Ok(EventKind::Cues),
            2 => Ok(EventKind::Packets),
            _ => Err(Refusal::EventKind),
        }
    }
}

// The sequencer's number in the header.
impl TryFrom<u32> for SequencerKind {
    type Error = Refusal;

    ghost try_from_gives = { λ number r. reply r ≡ sequencer_kind number };

    fn try_from(number: u32) -> Result<SequencerKind, Refusal> {
        match number {
            1 => Ok(SequencerKind::Single),
            2 => Ok(SequencerKind::Multi),
            _ => Err(Refusal::SequencerKind),
        }
    }
}

fn check_size(file: &[u8]) -> Result<(), Fault>
    ensures value { told result ≡ sized file.now }
    ensures whole { OnOk result (48 ≤ length file.now) }
{
    if file.len() < HEADER_SIZE || file.len() > MOST_BYTES {
        return refuse(Refusal::FileSize, 0);
    }
    Ok(())
}

// A file that has a whole header, to read its fields from.
#[derive(Clone, Copy)]
struct Fields<'a> {
    file: &'a [u8],
    ghost whole: { 48 ≤ length file.now },
}

impl Fields<'_> {
    // The 32-bit number at a place.
    fn number(&self, at: usize) -> u32
        requires { at ≤ 44 }
        ensures { result ≡ u32_at self.now.file.now at }
    {
        u32_at(self.file, at).unwrap()
    }

    // The two kinds are read by two functions, since one over any kind could not equate what it answers.
    fn kind(&self) -> Result<EventKind, Fault>
        ensures { told result ≡ kind_of self.now.file.now }
    {
        EventKind::try_from(self.number(0)).map_err(|why| Fault { why, place: 0 })
    }

    fn capacity(&self) -> Result<u64, Fault>
        ensures { told result ≡ capacity_of self.now.file.now }
    {
        let capacity = u64::from(self.number(4));
        if !is_capacity(capacity) {
            return refuse(Refusal::Capacity, 4);
        }
        Ok(capacity)
    }

    fn stage_count(&self) -> Result<u32, Fault>
        ensures { told result ≡ stage_count_of self.now.file.now }
    {
        let count = self.number(8);
        if count == 0 || count > 8 {
            return refuse(Refusal::StageCount, 8);
        }
        Ok(count)
    }

    fn sequencer(&self) -> Result<SequencerKind, Fault>
        ensures { told result ≡ sequencer_of self.now.file.now }
    {
        SequencerKind::try_from(self.number(36)).map_err(|why| Fault { why, place: 36 })
    }

    fn producers(&self, sequencer: SequencerKind) -> Result<usize, Fault>
        ensures { told result ≡ producers_of self.now.file.now sequencer }
    {
        let producers = self.number(12);
        let most = match sequencer {
            SequencerKind::Single => 1,
            SequencerKind::Multi => 8,
        };
        if producers == 0 || producers > most {
            return refuse(Refusal::ProducerCount, 12);
        }
        Ok(producers as usize)
    }

    fn start(&self) -> Result<u64, Fault>
        ensures { told result ≡ start_of self.now.file.now }
    {
        let start = u64_at(self.file, 40).unwrap();
        if start > SEQUENCE_END {
            return refuse(Refusal::Start, 40);
        }
        Ok(start)
    }

    // The section whose offset stands at a place. Numbers of 32 bits, so no sum of 64 bits wraps.
    fn section(&self, place: usize, count: u32, size: usize) -> Result<Section, Fault>
        requires low { place ≤ 44 }
        requires small { size ≤ 68 }
        ensures { told result ≡ section_of self.now.file.now place count size }
    {
        let start = self.number(place) as usize;
        let count = count as usize;
        if start < HEADER_SIZE || self.file.len() < start + count * size {
            return refuse(Refusal::Section, place);
        }
        Ok(Section { start, count })
    }
}
