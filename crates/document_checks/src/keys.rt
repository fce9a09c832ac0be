//! The keys of a document's tables, and what stands at each.

/// What stands at a key.
#[derive(Clone, Copy, Debug, PartialEq, Eq)]
pub(crate) enum Wanted {
    /// A number of 32 bits.
    Number,
    /// A number of eight bits.
    Byte,
    Flag,
    Text,
    Kind,
    Serving,
    Action,
    Numbers,
    Tables,
}

/// Where a key is needed.
#[derive(Clone, Copy, Debug, PartialEq, Eq)]
pub(crate) enum Need {
    Never,
    Always,
    /// In an atomic queue.
    Atomic,
    /// In an ordered queue.
    Ordered,
}

/// A key of a table.
#[derive(Clone, Copy, Debug)]
pub(crate) struct Key {
    pub(crate) name: &'static str,
    pub(crate) wanted: Wanted,
    pub(crate) need: Need,
    /// What stands there, in words.
    pub(crate) words: &'static str,
}

const LIMIT: Key = Key {
    name: "limit",
    wanted: Wanted::Number,
    need: Need::Always,
    words: "a number from 1 to 16,384",
};

const QUANTUM: Key = Key {
    name: "quantum",
    wanted: Wanted::Number,
    need: Need::Always,
    words: "a number from 1 to the limit",
};

const SWEEP: Key = Key {
    name: "sweep",
    wanted: Wanted::Number,
    need: Need::Always,
    words: "a number from 1 to 64",
};

const SERVING: Key = Key {
    name: "serving",
    wanted: Wanted::Serving,
    need: Need::Never,
    words: "\"ports\" or \"flows\"",
};

const DEPTH: Key = Key {
    name: "depth",
    wanted: Wanted::Number,
    need: Need::Always,
    words: "a number from 1 to 64",
};

const REPLIES: Key = Key {
    name: "replies",
    wanted: Wanted::Number,
    need: Need::Always,
    words: "a number from 1 to 64",
};

const KIND: Key = Key {
    name: "kind",
    wanted: Wanted::Kind,
    need: Need::Always,
    words: "\"atomic\", \"ordered\" or \"parallel\"",
};

const PRIORITY: Key = Key {
    name: "priority",
    wanted: Wanted::Byte,
    need: Need::Never,
    words: "a number from 0 to 255",
};

const SLOTS: Key = Key {
    name: "slots",
    wanted: Wanted::Number,
    need: Need::Atomic,
    words: "a number from 1 to 64",
};

const ORDER: Key = Key {
    name: "order",
    wanted: Wanted::Number,
    need: Need::Ordered,
    words: "a number from 1 to 256",
};

/// The keys of a document of `play`, of a queue of it, and of a port.
pub(crate) const PLAY_KEYS: [Key; 7] = [
    LIMIT,
    QUANTUM,
    SWEEP,
    SERVING,
    Key {
        name: "script",
        wanted: Wanted::Text,
        need: Need::Always,
        words: "a text",
    },
    Key {
        name: "queue",
        wanted: Wanted::Tables,
        need: Need::Always,
        words: "an array of tables, [[queue]]",
    },
    Key {
        name: "port",
        wanted: Wanted::Tables,
        need: Need::Always,
        words: "an array of tables, [[port]]",
    },
];

pub(crate) const QUEUE_KEYS: [Key; 5] = [
    KIND,
    PRIORITY,
    SLOTS,
    ORDER,
    Key {
        name: "single",
        wanted: Wanted::Flag,
        need: Need::Never,
        words: "true or false",
    },
];

pub(crate) const PORT_KEYS: [Key; 5] = [
    Key {
        name: "threshold",
        wanted: Wanted::Number,
        need: Need::Always,
        words: "a number from the quantum to the limit",
    },
    DEPTH,
    REPLIES,
    Key {
        name: "implicit",
        wanted: Wanted::Flag,
        need: Need::Never,
        words: "true or false",
    },
    Key {
        name: "links",
        wanted: Wanted::Numbers,
        need: Need::Always,
        words: "an array of the numbers of queues",
    },
];

/// The keys of a document of `run`, and of a stage of it.
pub(crate) const RUN_KEYS: [Key; 8] = [
    LIMIT,
    QUANTUM,
    SWEEP,
    DEPTH,
    REPLIES,
    SERVING,
    Key {
        name: "trace",
        wanted: Wanted::Text,
        need: Need::Always,
        words: "a text",
    },
    Key {
        name: "stage",
        wanted: Wanted::Tables,
        need: Need::Always,
        words: "an array of tables, [[stage]]",
    },
];

pub(crate) const STAGE_KEYS: [Key; 5] = [
    KIND,
    PRIORITY,
    SLOTS,
    ORDER,
    Key {
        name: "action",
        wanted: Wanted::Action,
        need: Need::Never,
        words: "\"pass\", \"add K\" with K below 2^64, or \"drop M\" with M from 1 to 2^64 - 1",
    },
];
