//! Events: known words, and the levels of priorities.

use evt_types::{Event, EventFault, Kind, Op, WordFault};
use std::test::Fail;

/// What an event is made of: flow, sub-type, type, operation, queue, priority and payload.
type Fields = (u32, u8, u8, Op, u8, u8, u64);

fn made(fields: &Fields) -> Result<Event, EventFault> {
    let (flow, sub_type, event_type, op, queue, priority, payload) = *fields;
    Event::new(flow, sub_type, event_type, op, queue, priority, payload)
}

const PLAIN: Fields = (7, 0, 0, Op::New, 0, 128, 0);

/// All numbers are the largest that there are.
const LARGEST: Fields = (1_048_575, 255, 15, Op::Release, 255, 255, 9);

/// All numbers are 0.
const ZERO: Fields = (0, 0, 0, Op::New, 0, 0, 0);

const RELEASE: Fields = (0, 0, 0, Op::Release, 0, 0, 0);

const FORWARD_MORE: Fields = (0, 0, 0, Op::ForwardMore, 0, 0, 0);

/// Events, each with its queue's scheduling type, and the words of both.
static WORDS: [(Fields, Kind, u64); 5] = [
    (PLAIN, Kind::Atomic, 0x0080_0040_0000_0007),
    (LARGEST, Kind::Parallel, 0x00ff_ff82_ffff_ffff),
    (ZERO, Kind::Ordered, 0),
    (RELEASE, Kind::Ordered, 0x0000_0002_0000_0000),
    (FORWARD_MORE, Kind::Ordered, 0x0000_0003_0000_0000),
];

#[test]
fn words_of_events(rt: HostRuntime) -> Result<(), Fail> {
    for (fields, kind, word) in &WORDS {
        let event = made(fields)?;
        let read = Event::from_word(*word, event.payload);
        assert_eq!(rt; (event.word(*kind), read), (*word, Ok((event, *kind))));
    }
    Ok(())
}

static WRONG_WORDS: [(u64, WordFault); 2] = [
    (0x0000_0004_0000_0000, WordFault::ReservedBits),
    (0x0000_00c0_0000_0000, WordFault::UnknownKind),
];

#[test]
fn refused_words(rt: HostRuntime) {
    for (word, fault) in &WRONG_WORDS {
        let refused = Event::from_word(*word, 0).err();
        assert_eq!(rt; refused, Some(*fault), "the word {word}");
    }
}

static LEVELS: [(u8, usize); 5] = [(0, 0), (63, 0), (64, 1), (128, 2), (255, 3)];

#[test]
fn levels_of_priorities(rt: HostRuntime) -> Result<(), Fail> {
    for (priority, level) in &LEVELS {
        let event = made(&(0, 0, 0, Op::New, 0, *priority, 0))?;
        assert_eq!(rt; event.level(), *level, "at {priority}");
    }
    Ok(())
}
