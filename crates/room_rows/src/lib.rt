// Worked rows of the room: theorems about its definitions, and tests of the code on the same examples.

#![tactic(auto)]

ghost use Rattle.room_rows.specs.Rows.{AllRows, RoomRows};

use worked::worked_rows;

// The worked rows of the room are true of the definitions.
pub fn room_rows()
    ensures { RoomRows }
{}

// All worked rows are, of the layers below and of the room.
pub fn all_rows()
    ensures { AllRows }
{
    worked_rows();
    room_rows();
}

#[cfg(test)]
mod tests {
    use bank::Last;
    use events::cue::Cue;
    use events::event::Event;
    use multi::Multi;
    use playout::plan::Plan;
    use ring::Ring;
    use schedule::call::Call;
    use schedule::play::{Answer, play};
    use sequencer::Sequencer;
    use single::Single;
    use stages::journal::Journal;
    use std::process::Abort;
    use std::test::Fail;

    // Makes a room with one stage, runs the calls, and tells whether the answers are the ones expected, a refusal by its
    // number, since the table's numbers are what is tested.
    fn answers_to<S: Sequencer + Drop, const N: usize>(
        rt: &impl Abort,
        ring: &mut Ring<'_, Cue>,
        capacity: u64,
        producers: usize,
        calls: &[Call<Cue>; N],
        expected: &[Result<u64, u8>; N],
    ) -> Result<(), Fail> {
        let mut bank = Last {
            stage: Journal::new(),
        };
        let Ok(plan) = Plan::new(0, &[0]) else {
            return Err(Fail::new("no plan"));
        };
        let mut answers: [Answer; N] = [Ok(9); N];
        play::<S, Cue, Last<Journal>>(
            plan,
            capacity,
            producers,
            ring,
            &mut bank,
            calls,
            &mut answers,
        )
        .map_err(|_| Fail::new("no room"))?;
        for (answer, wanted) in answers.iter().zip(expected) {
            assert_eq!(rt; answer.map_err(|why| why.number()), *wanted);
        }
        Ok(())
    }

    #[test]
    fn one_slot(rt: HostRuntime) -> Result<(), Fail> {
        let mut events = [<Cue as Event>::blank(); 1];
        let mut marks = [0; 8];
        let mut ring = Ring::new(&mut events, &mut marks);
        let calls = [
            Call::Claim {
                producer: 0,
                amount: 1,
            },
            Call::Write {
                producer: 0,
                event: <Cue as Event>::blank(),
            },
            Call::Publish { producer: 0 },
            Call::Claim {
                producer: 0,
                amount: 1,
            },
            Call::Look { stage: 0 },
            Call::Handle { stage: 0 },
            Call::Commit { stage: 0 },
            Call::Claim {
                producer: 0,
                amount: 1,
            },
            Call::Gate { producer: 0 },
            Call::Claim {
                producer: 0,
                amount: 1,
            },
        ];
        let expected = [
            Ok(0),
            Ok(0),
            Ok(1),
            Err(19),
            Ok(1),
            Ok(0),
            Ok(1),
            Err(19),
            Ok(1),
            Ok(1),
        ];
        answers_to::<Single, 10>(&rt, &mut ring, 1, 1, &calls, &expected)
    }

    #[test]
    fn two_producers(rt: HostRuntime) -> Result<(), Fail> {
        let mut events = [<Cue as Event>::blank(); 4];
        let mut marks = [0; 32];
        let mut ring = Ring::new(&mut events, &mut marks);
        let calls = [
            Call::Claim {
                producer: 0,
                amount: 2,
            },
            Call::Claim {
                producer: 1,
                amount: 1,
            },
            Call::Write {
                producer: 1,
                event: <Cue as Event>::blank(),
            },
            Call::Publish { producer: 1 },
            Call::Look { stage: 0 },
            Call::Write {
                producer: 0,
                event: <Cue as Event>::blank(),
            },
            Call::Write {
                producer: 0,
                event: <Cue as Event>::blank(),
            },
            Call::Publish { producer: 0 },
            Call::Look { stage: 0 },
        ];
        let expected = [
            Ok(0),
            Ok(2),
            Ok(2),
            Ok(3),
            Ok(0),
            Ok(0),
            Ok(1),
            Ok(2),
            Ok(3),
        ];
        answers_to::<Multi, 9>(&rt, &mut ring, 4, 2, &calls, &expected)
    }

    #[test]
    fn refusals_in_order(rt: HostRuntime) -> Result<(), Fail> {
        let mut events = [<Cue as Event>::blank(); 2];
        let mut marks = [0; 16];
        let mut ring = Ring::new(&mut events, &mut marks);
        let calls = [
            Call::Gate { producer: 1 },
            Call::Claim {
                producer: 1,
                amount: 9,
            },
            Call::Claim {
                producer: 0,
                amount: 3,
            },
            Call::Write {
                producer: 0,
                event: <Cue as Event>::blank(),
            },
            Call::Publish { producer: 0 },
            Call::Claim {
                producer: 0,
                amount: 2,
            },
            Call::Claim {
                producer: 0,
                amount: 9,
            },
            Call::Publish { producer: 0 },
            Call::Write {
                producer: 0,
                event: <Cue as Event>::blank(),
            },
            Call::Write {
                producer: 0,
                event: <Cue as Event>::blank(),
            },
            Call::Write {
                producer: 0,
                event: <Cue as Event>::blank(),
            },
            Call::Look { stage: 1 },
            Call::Handle { stage: 0 },
            Call::Commit { stage: 0 },
        ];
        let expected = [
            Err(13),
            Err(13),
            Err(17),
            Err(20),
            Err(20),
            Ok(0),
            Err(16),
            Err(22),
            Ok(0),
            Ok(1),
            Err(21),
            Err(14),
            Err(23),
            Err(24),
        ];
        answers_to::<Single, 14>(&rt, &mut ring, 2, 1, &calls, &expected)
    }

    #[test]
    fn another_size(rt: HostRuntime) -> Result<(), Fail> {
        let mut events = [<Cue as Event>::blank(); 2];
        let mut marks = [0; 16];
        let mut ring = Ring::new(&mut events, &mut marks);
        let calls = [
            Call::Gate { producer: 9 },
            Call::Claim {
                producer: 0,
                amount: 1,
            },
            Call::Write {
                producer: 0,
                event: <Cue as Event>::blank(),
            },
            Call::Publish { producer: 0 },
            Call::Look { stage: 0 },
            Call::Handle { stage: 9 },
            Call::Commit { stage: 0 },
        ];
        answers_to::<Multi, 7>(&rt, &mut ring, 4, 1, &calls, &[Err(11); 7])
    }
}
