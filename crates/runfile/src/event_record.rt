// The event records of a run file, by the kind of their events.
ghost use Rattle.std.specs.Prelude.{◌≡◌, ℕ, ◌+◌, ◌*◌, ◌≤◌, List, length};
ghost use Rattle.events.specs.Records.{cue_at};
ghost use Rattle.runfile.specs.EventRecords.{checked_all, packet_at};
ghost use Rattle.runfile.specs.Faults.{Read, good, told};
ghost use Rattle.std.proofs.Common.{rules};

use crate::fault::Fault;
use crate::header::Section;
use events::cue::Cue;
use events::event::Event;
use events::packet::Packet;
use events::record::{CUE_SIZE, cue_at};

// A kind of event that has records in a file.
pub(crate) trait EventRecord: Event {
    // How many bytes a record has.
    const SIZE: usize;

    ghost SIZE: { ℕ };

    ghost decoded: { List ℕ → ℕ → Read Self };

    // The event whose record begins at a place.
    fn read(file: &[u8], at: usize) -> Result<Self, Fault>
        requires { at + SIZE ≤ length file.now }
        ensures { told result ≡ decoded file.now at };

    ghost few: { SIZE ≤ 68 };
}

impl EventRecord for Cue {
    const SIZE: usize = CUE_SIZE;

    ghost SIZE = { 16 };

    ghost decoded = { λ file at. good (cue_at file at) };

    ghost few = { Prim.search rules };

    fn read(file: &[u8], at: usize) -> Result<Cue, Fault> {
        Ok(cue_at(file, at).unwrap())
    }
}

impl EventRecord for Packet {
    const SIZE: usize = 68;

    ghost SIZE = { 68 };

    ghost decoded = { packet_at };

    ghost few = { Prim.search rules };

    fn read(file: &[u8], at: usize) -> Result<Packet, Fault> {
        let [channel, length, ..] = *file[at..at + 4].as_array::<4>().unwrap();
        let text = file[at + 4..at + Self::SIZE].as_array().unwrap();
        Packet::new(channel, length, text).map_err(|why| Fault { why, place: at })
    }
}

// Whether every event record of a section can be read, used or not.
#[tactic(auto, using(crate::proofs::Records::checked_step), unfolding(crate::specs::EventRecords::checked_from))]
pub(crate) fn check_events<E: EventRecord>(file: &[u8], section: Section) -> Result<(), Fault>
    requires { section.start + section.count * E.EventRecord.SIZE ≤ length file.now }
    ensures { told result ≡ checked_all E.EventRecord.decoded E.EventRecord.SIZE file.now section.start section.count }
{
    // by number, since a record's place is wanted for its fault
    for k in 0..section.count {
        let _ = E::read(file, section.start + k * E::SIZE)?;
    }
    Ok(())
}
