//! Examples of stages that events pass through.

pub(crate) const TWO_STAGES: &str =
    r#"# A pipeline of two stages by hand: an atomic queue, where the events of a flow are handled one after the other, and then a
# parallel queue, where they are handled at once.
#
#     ./evsched play < examples/two-stages.toml

limit = 8
quantum = 2
sweep = 8

# fwd P Q FLOW PRIO PAYLOAD: port P enqueues RTE_EVENT_OP_FORWARD to queue Q. It answers the oldest event that the port holds.
# shut: no port may bring new events in any more; what is inside is served to the end.
script = """
new 0 0 7 128 1
new 0 0 7 128 2
sweep
deq 1 2
fwd 1 1 7 128 10
fwd 1 1 7 128 20
sweep
deq 1 4
deq 2 4
shut
rel 1
rel 2
sweep
new 0 0 7 128 3
"""

[[queue]]
kind = "atomic"   # stage 0: RTE_SCHED_TYPE_ATOMIC
slots = 4

[[queue]]
kind = "parallel" # stage 1: RTE_SCHED_TYPE_PARALLEL

# Port 0 brings events in.
[[port]]
threshold = 8
depth = 4
replies = 4
implicit = false
links = []

# Ports 1 and 2 are workers on both stages.
[[port]]
threshold = 8
depth = 4
replies = 4
implicit = false
links = [0, 1]

[[port]]
threshold = 8
depth = 4
replies = 4
implicit = false
links = [0, 1]
"#;

pub(crate) const ORDERED_STAGE: &str =
    r#"# An ordered stage: two workers handle the events of one flow at once and finish out of order. What they forward enters the
# next stage in the order in which the stage's events were handed out.
#
#     ./evsched play < examples/ordered-stage.toml

limit = 8
quantum = 2
sweep = 8

# Port 2 forwards the second event first: it is kept until the first one is answered. After the first forward the log has
# a Done with no Accept, after the second a Done and both Accepts, first that of the event that was handed out first.
script = """
new 0 0 7 128 1
new 0 0 7 128 2
sweep
deq 1 1
deq 2 1
fwd 2 1 7 128 20
sweep
fwd 1 1 7 128 10
sweep
deq 3 4
"""

[[queue]]
kind = "ordered"  # stage 0: RTE_SCHED_TYPE_ORDERED
order = 8         # at most so many events are handed out and not yet passed on

[[queue]]
kind = "atomic"   # stage 1: RTE_SCHED_TYPE_ATOMIC
slots = 4

# Port 0 brings events in.
[[port]]
threshold = 8
depth = 4
replies = 4
implicit = false
links = []

# Ports 1 and 2 are the workers of the ordered stage.
[[port]]
threshold = 8
depth = 4
replies = 4
implicit = false
links = [0]

[[port]]
threshold = 8
depth = 4
replies = 4
implicit = false
links = [0]

# Port 3 is given what they pass on.
[[port]]
threshold = 8
depth = 4
replies = 4
implicit = false
links = [1]
"#;

pub(crate) const ORDERED_RELEASE: &str =
    r#"# An ordered stage that drops an event: a release keeps nothing back. Of three events the third is forwarded first and the
# second released; as the first is forwarded, both forwards enter the next stage, in the order of the hand-out.
#
#     ./evsched play < examples/ordered-release.toml

limit = 8
quantum = 2
sweep = 8

# rel P: port P enqueues RTE_EVENT_OP_RELEASE. The place of the event that it answers is passed over.
script = """
new 0 0 7 128 1
new 0 0 7 128 2
new 0 0 7 128 3
sweep
deq 1 1
deq 2 1
deq 3 1
fwd 3 1 7 128 30
rel 2
sweep
fwd 1 1 7 128 10
sweep
deq 1 4
deq 2 4
"""

[[queue]]
kind = "ordered"  # stage 0: RTE_SCHED_TYPE_ORDERED
order = 4

[[queue]]
kind = "parallel" # stage 1: RTE_SCHED_TYPE_PARALLEL

# Port 0 brings events in.
[[port]]
threshold = 8
depth = 4
replies = 4
implicit = false
links = []

# Ports 1 to 3 are workers of the ordered stage, and ports 1 and 2 of the next one too.
[[port]]
threshold = 8
depth = 4
replies = 4
implicit = false
links = [0, 1]

[[port]]
threshold = 8
depth = 4
replies = 4
implicit = false
links = [0, 1]

[[port]]
threshold = 8
depth = 4
replies = 4
implicit = false
links = [0]
"#;

pub(crate) const TRANSMIT: &str =
    r#"# A single-link queue in front of a transmit port: workers forward to it from any core, and one port alone empties it, so that
# the device behind that port needs no lock.
#
#     ./evsched play < examples/transmit.toml

limit = 8
quantum = 2
sweep = 8

script = """
new 0 0 3 128 1
new 0 0 5 128 2
sweep
deq 1 4
deq 2 4
fwd 1 1 3 128 1
fwd 2 1 5 128 2
sweep
deq 3 4
rel 3
rel 3
sweep
"""

[[queue]]
kind = "atomic"
slots = 4

[[queue]]
kind = "parallel"
single = true   # RTE_EVENT_QUEUE_CFG_SINGLE_LINK: at most one port may be linked

# Port 0 brings events in.
[[port]]
threshold = 8
depth = 4
replies = 4
implicit = false
links = []

# Ports 1 and 2 are workers.
[[port]]
threshold = 8
depth = 4
replies = 4
implicit = false
links = [0]

[[port]]
threshold = 8
depth = 4
replies = 4
implicit = false
links = [0]

# Port 3 transmits (RTE_EVENT_PORT_CFG_SINGLE_LINK).
[[port]]
threshold = 8
depth = 4
replies = 4
implicit = false
links = [1]
"#;

pub(crate) const SEVERAL_FORWARDS: &str =
    r#"# A packet that is cut into three: a worker adds two events beside the one that it holds, and forwards that one as the third.
# The stage is ordered, so the three stand together in the next stage, before what the packet behind them became.
#
#     ./evsched play < examples/several-forwards.toml

limit = 8
quantum = 2
sweep = 8

# more P Q FLOW PRIO PAYLOAD: port P adds an event for queue Q beside the oldest event that it holds. That one stays held, and
# at most four may be added before its FORWARD or RELEASE. Each costs a credit, as a NEW does. (DPDK has no such operation: a
# program enqueues RTE_EVENT_OP_NEW in its place, which takes no part in the order.)
#
# Port 2 is done first: what it forwards is kept. The first packet's two pieces are kept too, as that packet is still held.
# Once it is forwarded, all four leave, in order.
script = """
new 0 0 7 128 1
new 0 0 7 128 2
sweep
deq 1 1
deq 2 1
fwd 2 1 7 128 20
more 1 1 7 128 11
more 1 1 7 128 12
sweep
fwd 1 1 7 128 13
sweep
deq 3 4
rel 3
rel 3
rel 3
rel 3
sweep
"""

[[queue]]
kind = "ordered"  # stage 0: RTE_SCHED_TYPE_ORDERED
order = 4

[[queue]]
kind = "parallel" # stage 1: what is to be transmitted
single = true     # RTE_EVENT_QUEUE_CFG_SINGLE_LINK: at most one port may be linked

# Port 0 brings packets in.
[[port]]
threshold = 8
depth = 4
replies = 4
implicit = false
links = []

# Ports 1 and 2 are workers of the ordered stage.
[[port]]
threshold = 8
depth = 4
replies = 4
implicit = false
links = [0]

[[port]]
threshold = 8
depth = 4
replies = 4
implicit = false
links = [0]

# Port 3 transmits.
[[port]]
threshold = 8
depth = 4
replies = 4
implicit = false
links = [1]
"#;
