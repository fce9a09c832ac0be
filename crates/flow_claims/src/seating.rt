//! What a seat knows. These types stand in contracts alone: no value of them is made.

use evt_types::{Delivery, Reply};
use lane_rings::Far;
use std::collections::LinkedList;

/// What was received from a lane and what was answered to it, from the lane's making on.
pub struct LaneLists {
    pub received: LinkedList<Delivery>,
    pub answered: LinkedList<Reply>,
}

/// An open stint.
pub struct Begun {
    pub lane: u64,
    /// How many stints the lane had before.
    pub number: u64,
    pub port: u64,
    /// The lane's lists as the stint began.
    pub start: LaneLists,
}

/// A finished stint.
pub struct Past {
    pub lane: u64,
    /// How many stints the lane had before.
    pub number: u64,
    pub port: u64,
    /// The lane's lists as the stint began.
    pub start: LaneLists,
    /// The lane's lists as it ended.
    pub end: LaneLists,
    /// The lane was surrendered, and not given back.
    pub surrendered: bool,
}

/// A word that was read.
pub struct Reading {
    pub lane: u64,
    pub word: u64,
}

/// What a seat knows.
pub struct Seating {
    /// The ends of all lanes, as they were handed over.
    pub lanes: LinkedList<Far>,
    /// The first seat has 64 parts, and each split gives one away.
    pub parts: u64,
    /// The word that the seat read last.
    pub last: Reading,
    /// The word that it read before that one.
    pub before: Reading,
    /// How many words it read: one by a load, one by an exchange. The end of a stint uses no word that it finds, and leaves this and
    /// both words as they were.
    pub reads: u64,
    /// The lanes whose words it loaded, in the order of the loads. A claim loads the word of its lane once, and so does the closing of a
    /// lane; an exchange isn't noted here.
    pub loads: LinkedList<u64>,
    /// Its open stints; the slot of the first was taken last.
    pub held: LinkedList<Begun>,
    /// Its finished stints, and those of the seats that were joined into it.
    pub finished: LinkedList<Past>,
    /// The lanes below this number were closed through the seat.
    pub closed: u64,
}
