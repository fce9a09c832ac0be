//! A refused call changes nothing: a script with it and the script without it are written alike, but for the line that answers it.
//!
//! No line of an answer, of the log or of the report counts calls, so that the two texts are compared whole. Only a NEW or
//! FORWARD_MORE that is refused as `Full` may change credits: where its port's pocket is empty it has drawn a quantum. Here that
//! pocket holds a credit each time. The reply ring of a flow lane has room for all that is given of it, so that what is held of the port's own lane
//! meets `Full`, whichever way the device is served.

use pipeline_app::play;
use std::alloc::Global;
use std::process::Abort;
use std::test::Fail;

/// A script, the call that is refused after it, and its answer.
#[derive(Clone, Copy)]
struct Row {
    setup: &'static str,
    refused: &'static str,
    answer: &'static str,
}

/// How a document says that the device is served by its ports, and by flows.
const BY_PORTS: &str = "";

const BY_FLOWS: &str = "serving = \"flows\"\n";

const LIMITS: &str = "limit = 8\nquantum = 2\nsweep = 8\n";

/// Events of queue 1 are given to port 1 alone, and those of queue 3 to port 2.
const QUEUES: &str = "[[queue]]\nkind = \"atomic\"\nslots = 4\n\
    [[queue]]\nkind = \"parallel\"\n\
    [[queue]]\nkind = \"ordered\"\norder = 4\n\
    [[queue]]\nkind = \"parallel\"\n";

const PORTS: &str =
    "[[port]]\nthreshold = 8\ndepth = 4\nreplies = 3\nimplicit = false\nlinks = [0, 2]\n\
    [[port]]\nthreshold = 8\ndepth = 4\nreplies = 3\nimplicit = false\nlinks = [0, 1, 2]\n\
    [[port]]\nthreshold = 4\ndepth = 4\nreplies = 3\nimplicit = true\nlinks = [0, 2, 3]\n";

/// Each kind of call on each port, after the call that is refused.
const REST: &str = "sweep\ndeq 0 2\ndeq 1 2\ndeq 2 2\n\
    more 0 2 7 128 111\nmore 1 0 7 128 112\nmore 2 2 7 128 113\n\
    fwd 0 2 7 128 101\nfwd 1 2 7 128 102\nfwd 2 2 7 128 103\nrel 0\nrel 1\nrel 2\n\
    new 0 0 7 128 104\nnew 1 0 5 64 105\nnew 2 2 5 128 106\nsweep\ndeq 0 4\ndeq 1 4\ndeq 2 4\n\
    rel 0\nfwd 1 0 6 0 107\nrel 2\nsweep\nshut\n\
    new 0 0 7 128 108\nnew 1 1 7 128 109\nnew 2 3 7 128 110\ndeq 0 4\ndeq 1 4\ndeq 2 4\n\
    rel 0\nrel 1\nrel 2\nsweep\n";

/// All credits are spent, four by each of the ports 0 and 1.
const SPENT: &str =
    "new 0 0 7 128 1\nnew 0 1 7 128 2\nsweep\nnew 0 2 7 128 3\nnew 0 3 7 128 4\nsweep\n\
    new 1 0 5 128 5\nnew 1 1 5 128 6\nsweep\nnew 1 2 5 128 7\nnew 1 0 6 128 8\n";

/// Port 2 may have no more than four credits in use.
const AT_THRESHOLD: &str = "new 0 0 7 128 1\nnew 2 0 5 128 2\nnew 2 1 5 128 3\n";

/// All credits are spent, and port 1 has one again by a release that isn't taken.
const RELEASED: &str =
    "new 0 1 7 128 1\nnew 0 1 7 128 2\nsweep\ndeq 1 4\nnew 0 0 7 128 3\nnew 0 0 5 128 4\nsweep\n\
    new 0 2 7 128 5\nnew 0 2 7 128 6\nsweep\nnew 0 0 7 128 7\nnew 0 0 5 128 8\nrel 1\n";

/// The same, and port 1 has spent that credit.
const RELEASED_AND_SPENT: &str =
    "new 0 1 7 128 1\nnew 0 1 7 128 2\nsweep\ndeq 1 4\nnew 0 0 7 128 3\nnew 0 0 5 128 4\nsweep\n\
    new 0 2 7 128 5\nnew 0 2 7 128 6\nsweep\nnew 0 0 7 128 7\nnew 0 0 5 128 8\nrel 1\nnew 1 0 7 128 9\n";

/// Two events were given, and none is dequeued.
const GIVEN: &str = "new 0 0 7 128 1\nnew 0 1 7 128 2\nsweep\n";

/// Port 1 holds an event, or has released it.
const HELD: &str = "new 0 1 7 128 1\nsweep\ndeq 1 4\n";

const ANSWERED: &str = "new 0 1 7 128 1\nsweep\ndeq 1 4\nrel 1\n";

/// Of two events of one flow both are held by one port.
const FLOW_HELD: &str = "new 0 0 7 128 1\nnew 0 0 7 128 2\nsweep\ndeq 0 4\ndeq 1 4\ndeq 2 4\n";

/// Port 0's reply ring is full, and one credit is in its pocket.
const FULL_OF_NEW: &str = "new 0 0 7 128 1\nnew 0 1 7 128 2\nnew 0 2 7 128 3\n";

/// Port 1 holds an event, its reply ring is full of NEW, and one credit is in its pocket.
const HELD_AND_FULL: &str =
    "new 0 1 7 128 1\nsweep\ndeq 1 4\nnew 1 0 7 128 2\nnew 1 1 7 128 3\nnew 1 2 7 128 4\n";

/// Port 1 holds an event beside which it has added as many as it may.
const HELD_AND_FOUR_ADDED: &str =
    "new 0 1 7 128 1\nsweep\ndeq 1 4\nmore 1 0 7 128 2\nmore 1 1 7 128 3\nmore 1 2 7 128 4\nsweep\n\
    more 1 0 7 128 5\n";

/// Port 1 holds an event and no credit, and port 0 has drawn all.
const HELD_AND_DRAWN: &str =
    "new 0 1 7 128 1\nsweep\ndeq 1 4\nnew 0 0 7 128 2\nnew 0 0 7 128 3\nnew 0 2 7 128 4\nsweep\n\
    new 0 2 7 128 5\nnew 0 0 5 128 6\nnew 0 0 5 128 7\nsweep\n";

/// Port 1 holds an event and no credit, and the device is shut.
const HELD_AND_SHUT: &str = "new 0 1 7 128 1\nsweep\ndeq 1 4\nshut\n";

/// Port 1 held four events, and its reply ring is full of answers to three.
const FULL_OF_ANSWERS: &str =
    "new 0 1 7 128 1\nnew 0 1 7 128 2\nsweep\nnew 0 1 7 128 3\nnew 0 1 7 128 4\nsweep\n\
    deq 1 4\nrel 1\nfwd 1 0 7 128 5\nrel 1\n";

/// The same of port 2, whose dequeues release what is held.
const FULL_OF_FORWARDS: &str =
    "new 0 3 7 128 1\nnew 0 3 7 128 2\nsweep\nnew 0 3 7 128 3\nnew 0 3 7 128 4\nsweep\n\
    deq 2 4\nfwd 2 3 7 128 5\nfwd 2 0 7 128 6\nfwd 2 2 7 128 7\n";

/// The device is shut, and no sweep has seen it; or one has.
const SHUT: &str = "new 0 0 7 128 1\nnew 0 0 7 128 2\nshut\n";

const SHUT_AND_SWEPT: &str = "new 0 0 7 128 1\nsweep\nnew 0 0 7 128 2\nshut\nsweep\n";

static ROWS: [Row; 39] = [
    Row {
        setup: SPENT,
        refused: "new 0 0 7 128 9",
        answer: "new 0: Backpressure free=0",
    },
    Row {
        setup: SPENT,
        refused: "new 1 3 7 0 9",
        answer: "new 1: Backpressure free=0",
    },
    Row {
        setup: AT_THRESHOLD,
        refused: "new 2 0 7 128 9",
        answer: "new 2: Backpressure free=4",
    },
    Row {
        setup: RELEASED,
        refused: "new 0 0 7 128 9",
        answer: "new 0: Backpressure free=0",
    },
    Row {
        setup: RELEASED_AND_SPENT,
        refused: "new 1 0 7 128 10",
        answer: "new 1: Backpressure free=0",
    },
    Row {
        setup: "",
        refused: "fwd 0 0 7 128 9",
        answer: "fwd 0: NothingHeld",
    },
    Row {
        setup: "",
        refused: "rel 0",
        answer: "rel 0: NothingHeld",
    },
    Row {
        setup: GIVEN,
        refused: "fwd 1 0 7 128 9",
        answer: "fwd 1: NothingHeld",
    },
    Row {
        setup: GIVEN,
        refused: "rel 1",
        answer: "rel 1: NothingHeld",
    },
    Row {
        setup: ANSWERED,
        refused: "fwd 1 0 7 128 9",
        answer: "fwd 1: NothingHeld",
    },
    Row {
        setup: ANSWERED,
        refused: "rel 1",
        answer: "rel 1: NothingHeld",
    },
    // Port 1 holds what there is.
    Row {
        setup: HELD,
        refused: "fwd 2 0 7 128 9",
        answer: "fwd 2: NothingHeld",
    },
    Row {
        setup: HELD,
        refused: "rel 0",
        answer: "rel 0: NothingHeld",
    },
    Row {
        setup: "",
        refused: "new 0 4 7 128 9",
        answer: "new 0: BadQueue",
    },
    Row {
        setup: SPENT,
        refused: "new 0 255 7 128 9",
        answer: "new 0: BadQueue",
    },
    Row {
        setup: FULL_OF_NEW,
        refused: "new 0 4 7 128 9",
        answer: "new 0: BadQueue",
    },
    Row {
        setup: "",
        refused: "fwd 2 4 7 128 9",
        answer: "fwd 2: BadQueue",
    },
    Row {
        setup: HELD,
        refused: "fwd 1 4 7 128 9",
        answer: "fwd 1: BadQueue",
    },
    Row {
        setup: FLOW_HELD,
        refused: "fwd 0 255 7 128 9",
        answer: "fwd 0: BadQueue",
    },
    Row {
        setup: FULL_OF_NEW,
        refused: "new 0 0 7 128 9",
        answer: "new 0: Full",
    },
    Row {
        setup: HELD_AND_FULL,
        refused: "new 1 0 7 128 9",
        answer: "new 1: Full",
    },
    Row {
        setup: HELD_AND_FULL,
        refused: "fwd 1 0 7 128 9",
        answer: "fwd 1: Full",
    },
    Row {
        setup: HELD_AND_FULL,
        refused: "rel 1",
        answer: "rel 1: Full",
    },
    Row {
        setup: FULL_OF_ANSWERS,
        refused: "fwd 1 2 7 128 9",
        answer: "fwd 1: Full",
    },
    Row {
        setup: FULL_OF_ANSWERS,
        refused: "rel 1",
        answer: "rel 1: Full",
    },
    Row {
        setup: "",
        refused: "more 0 0 7 128 9",
        answer: "more 0: NothingHeld",
    },
    Row {
        setup: GIVEN,
        refused: "more 1 0 7 128 9",
        answer: "more 1: NothingHeld",
    },
    Row {
        setup: ANSWERED,
        refused: "more 1 0 7 128 9",
        answer: "more 1: NothingHeld",
    },
    Row {
        setup: "",
        refused: "more 2 4 7 128 9",
        answer: "more 2: BadQueue",
    },
    Row {
        setup: HELD_AND_FOUR_ADDED,
        refused: "more 1 4 7 128 9",
        answer: "more 1: BadQueue",
    },
    Row {
        setup: HELD_AND_FOUR_ADDED,
        refused: "more 1 0 7 128 9",
        answer: "more 1: TooMany",
    },
    Row {
        setup: HELD_AND_DRAWN,
        refused: "more 1 0 7 128 9",
        answer: "more 1: Backpressure free=0",
    },
    Row {
        setup: HELD_AND_FULL,
        refused: "more 1 0 7 128 9",
        answer: "more 1: Full",
    },
    Row {
        setup: HELD_AND_SHUT,
        refused: "more 1 0 7 128 9",
        answer: "more 1: Stopped",
    },
    // A dequeue that can release none of what is held.
    Row {
        setup: FULL_OF_FORWARDS,
        refused: "deq 2 4",
        answer: "deq 2: Behind released=0",
    },
    Row {
        setup: SHUT,
        refused: "new 0 0 7 128 9",
        answer: "new 0: Stopped",
    },
    Row {
        setup: SHUT,
        refused: "new 1 4 7 128 9",
        answer: "new 1: Stopped",
    },
    Row {
        setup: SHUT_AND_SWEPT,
        refused: "new 0 0 7 128 9",
        answer: "new 0: Stopped",
    },
    Row {
        setup: SHUT_AND_SWEPT,
        refused: "new 2 3 7 128 9",
        answer: "new 2: Stopped",
    },
];

/// What is written of a script, on the device that is served like this.
fn played(alloc: Global, serving: &str, script: &str) -> Result<String, Fail> {
    let document = format!(in alloc;
        "{LIMITS}{serving}script = \"\"\"\n{script}\"\"\"\n{QUEUES}{PORTS}"
    )?;
    let mut reader = document.as_bytes();
    let mut written = Vec::new(alloc);
    play(alloc, &mut reader, &mut written).map_err(|_| "a play")?;
    Ok(String::from_utf8(written).map_err(|_| "a text")?)
}

/// What is written of the row's script without the refused call, with its answer put in at its place.
fn expected(alloc: Global, serving: &str, row: &Row) -> Result<String, Fail> {
    let (setup, answer) = (row.setup, row.answer);
    let before = played(alloc, serving, setup)?;
    let (head, _) = before.split_once("log\n").ok_or("the answers")?;
    let script = format!(in alloc; "{setup}{REST}")?;
    let without = played(alloc, serving, &script)?;
    let rest = without.strip_prefix(head).ok_or("the same answers")?;
    Ok(format!(in alloc; "{head}{answer}\n{rest}")?)
}

/// Plays the row's script with the refused call.
fn changes_nothing(rt: &impl Abort, alloc: Global, serving: &str, row: &Row) -> Result<(), Fail> {
    let (setup, refused) = (row.setup, row.refused);
    let script = format!(in alloc; "{setup}{refused}\n{REST}")?;
    let written = played(alloc, serving, &script)?;
    let expected = expected(alloc, serving, row)?;
    assert!(rt; written == expected, "{serving}{setup}{refused}");
    Ok(())
}

#[test]
fn a_refused_call_changes_nothing(rt: HostRuntime) -> Result<(), Fail> {
    for serving in [BY_PORTS, BY_FLOWS] {
        for row in &ROWS {
            changes_nothing(&rt, rt.alloc(), serving, row)?;
        }
    }
    Ok(())
}
