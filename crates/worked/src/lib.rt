// Worked rows: theorems about the definitions, and tests of the code on the same examples.

#![tactic(auto)]

ghost use Rattle.std.specs.Prelude.{◌≡◌};
ghost use Rattle.ring.specs.Ring.{made_events, made_marks, written};
ghost use Rattle.worked.specs.Rows.{WorkedRows};

use events::event::Event;
use ring::Ring;

// The worked rows are true of the definitions.
pub fn worked_rows()
    ensures { WorkedRows }
{}

// Makes a ring over lent memory, writes one event, and lets the ring go: the maker knows its memory then.
pub fn stored<E: Event>(events: &mut [E], marks: &mut [u32], s: u64, event: E)
    ensures events_after { events.new ≡ written (made_events E.Event.blank events.old marks.old) s event }
    ensures marks_after { marks.new ≡ made_marks events.old marks.old }
{
    let mut ring = Ring::new(events, marks);
    ring.put(s, event);
}

#[cfg(test)]
mod tests {
    use super::stored;
    use air::Air;
    use cue_stages::check::Check;
    use events::cue::Cue;
    use events::event::Event;
    use events::packet::Packet;
    use ring::Ring;
    use sequencer::Sequencer;
    use stages::figures::Figures;
    use stages::journal::Journal;
    use stages::stage::Stage;
    use std::test::Fail;

    #[test]
    fn journal(rt: HostRuntime) {
        let mut journal = Journal::new();
        let cue = Cue {
            channel: 1,
            action: 2,
            item: 3,
            frame: 4,
        };
        assert_eq!(rt; journal.handle(0, &cue, &[0; 8]), 31_810);
        assert_eq!(rt;
            journal.handle(1, &<Cue as Event>::blank(), &[0; 8]),
            923_521
        );
        assert_eq!(rt; journal.figure(0), 2);
        assert_eq!(rt; journal.figure(1), 1_909_631);
    }

    #[test]
    fn packet(rt: HostRuntime) -> Result<(), Fail> {
        assert!(rt; Packet::new(0, 0, &[65; 64]).is_ok());
        assert!(rt; Packet::new(15, 64, &[65; 64]).is_ok());
        let Err(why) = Packet::new(15, 65, &[65; 64]) else {
            return Err(Fail::new("a packet of 65 bytes"));
        };
        assert_eq!(rt; why.number(), 10);
        Ok(())
    }

    #[test]
    fn check_frames(rt: HostRuntime) {
        let mut stage = Check::new();
        let last = Cue {
            channel: 0,
            action: 0,
            item: 0,
            frame: 2_159_999,
        };
        let past = Cue {
            channel: 0,
            action: 0,
            item: 0,
            frame: 2_160_000,
        };
        assert_eq!(rt; stage.handle(0, &last, &[0; 8]), 0);
        assert_eq!(rt; stage.handle(1, &past, &[0; 8]), 3);
    }

    // Hands Air a cue for channel 0, and tells what the channel shows then.
    fn shown(air: &mut Air, action: u8, item: u32) -> u64 {
        let cue = Cue {
            channel: 0,
            action,
            item,
            frame: 0,
        };
        let _ = air.handle(0, &cue, &[0; 8]);
        air.figure(1)
    }

    #[test]
    fn air(rt: HostRuntime) {
        let mut air = Air::new();
        assert_eq!(rt; shown(&mut air, 1, 0), 0);
        assert_eq!(rt; air.figure(0), 0);
        assert_eq!(rt; shown(&mut air, 0, 7), 15);
        assert_eq!(rt; shown(&mut air, 1, 0), 16);
        assert_eq!(rt; shown(&mut air, 2, 0), 15);
        assert_eq!(rt; shown(&mut air, 3, 0), 0);
        assert_eq!(rt; air.figure(0), 4);
    }

    #[test]
    fn ring_of_cues(rt: HostRuntime) {
        let mut events = [Cue {
            channel: 9,
            action: 9,
            item: 9,
            frame: 9,
        }; 4];
        let mut marks = [9u32; 32];
        let mut ring = Ring::new(&mut events, &mut marks);
        ring.put(
            6,
            Cue {
                channel: 1,
                action: 0,
                item: 7,
                frame: 5,
            },
        );
        ring.set_mark(6, 3, 31);
        assert_eq!(rt; ring.mark(2, 3), 31);
        assert_eq!(rt; ring.marks(6, 0b1000)[3], 31);
        assert_eq!(rt; ring.marks(6, 0b0111)[3], 0);
        assert_eq!(rt; events[2].item, 7);
        assert_eq!(rt; events[3].item, 0);
        assert_eq!(rt; marks[19], 31);
    }

    #[test]
    fn ring_of_packets(rt: HostRuntime) {
        let mut events = [<Packet as Event>::blank(); 2];
        let mut marks = [9u32; 16];
        let packet = Packet {
            channel: 3,
            length: 2,
            bytes: [65; 64],
        };
        stored(&mut events, &mut marks, 5, packet);
        assert_eq!(rt; events[1].count(), 4);
        assert_eq!(rt; events[0].count(), 2);
        assert_eq!(rt; marks[0], 0);
    }

    #[test]
    fn last_sequence(rt: HostRuntime) -> Result<(), Fail> {
        let end = 1u64 << 62;
        let mut none = <single::Single as Sequencer>::fresh(4, end)?;
        let Err(why) = none.claim(1, end) else {
            return Err(Fail::new("a claim at the end"));
        };
        assert_eq!(rt; why.number(), 18);
        let mut one = <multi::Multi as Sequencer>::fresh(4, end - 1)?;
        assert!(rt; one.claim(1, end - 1).is_ok());
        Ok(())
    }
}
