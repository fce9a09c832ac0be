//! Examples of queues and flows.

pub(crate) const FIRST_EVENT: &str = r#"# One event through one atomic queue. Run it with
#
#     ./evsched play < examples/first-event.toml
#
# The names are those of DPDK's eventdev: rte_event_dev_config, rte_event_queue_conf and rte_event_port_conf.

limit = 4       # nb_events_limit: how many events may be inside the device
quantum = 2     # how many credits a port draws at a time
sweep = 8       # the sweep quantum: how much one sweep takes from a port and gives from a queue

# new P Q FLOW PRIO PAYLOAD: port P enqueues RTE_EVENT_OP_NEW to queue Q. rel P: RTE_EVENT_OP_RELEASE by port P.
# deq P MAX: rte_event_dequeue_burst by port P. sweep: the scheduler makes one sweep.
script = """
new 0 0 7 128 5
sweep
deq 1 4
rel 1
sweep
"""

[[queue]]
kind = "atomic" # RTE_SCHED_TYPE_ATOMIC: the events of a flow go to one port at a time
slots = 4       # nb_atomic_flows: flow F falls into slot F mod 4

# Port 0 brings events in, and has no queue to dequeue from.
[[port]]
threshold = 4   # new_event_threshold
depth = 4       # dequeue_depth: how many events it may hold
replies = 4     # the room of its ring towards the scheduler
implicit = false # RTE_EVENT_PORT_CFG_DISABLE_IMPL_REL
links = []

# Port 1 is a worker, linked to queue 0 (rte_event_port_link).
[[port]]
threshold = 4
depth = 4
replies = 4
implicit = false
links = [0]
"#;

pub(crate) const TWO_FLOWS: &str =
    r#"# Two flows, two workers: an atomic queue keeps each flow with one port, and different flows go to different ports.
#
#     ./evsched play < examples/two-flows.toml

limit = 8
quantum = 2
sweep = 8

# Flow 3 and flow 5 fall into slots 3 and 1. While port 1 holds an event of flow 3, later ones of that flow follow it there;
# once it has released them all, any worker may have the next.
script = """
new 0 0 3 128 1
new 0 0 5 128 2
new 0 0 3 128 3
sweep
deq 1 4
deq 2 4
rel 1
rel 1
rel 2
sweep
"""

[[queue]]
kind = "atomic" # RTE_SCHED_TYPE_ATOMIC
slots = 4       # nb_atomic_flows

# Port 0 brings events in.
[[port]]
threshold = 8
depth = 4
replies = 4
implicit = false
links = []

# Ports 1 and 2 are workers on the same queue.
[[port]]
threshold = 8
depth = 4
replies = 4
implicit = false
links = [0]

[[port]]
threshold = 8
depth = 4
replies = 4
implicit = false
links = [0]
"#;

pub(crate) const ONE_FLOW_TWO_PORTS: &str =
    r#"# One flow, two workers: an atomic queue gives all events of the flow to one port, so that the other finds nothing.
#
#     ./evsched play < examples/one-flow-two-ports.toml

limit = 4
quantum = 2
sweep = 8

script = """
new 0 0 7 128 1
new 0 0 7 128 2
new 0 0 7 128 3
sweep
deq 2 4
deq 1 4
"""

[[queue]]
kind = "atomic"
slots = 4

# Port 0 brings events in.
[[port]]
threshold = 4
depth = 4
replies = 4
implicit = false
links = []

# Ports 1 and 2 are workers on the same queue.
[[port]]
threshold = 4
depth = 4
replies = 4
implicit = false
links = [0]

[[port]]
threshold = 4
depth = 4
replies = 4
implicit = false
links = [0]
"#;

pub(crate) const OVERTAKING: &str =
    r#"# Urgent events overtake: a queue of higher priority is served first, and in a queue the lower level of priority.
#
#     ./evsched play < examples/overtaking.toml

limit = 8
quantum = 2
sweep = 8

# new P Q FLOW PRIO PAYLOAD: priority 0 is the highest, 128 normal, 255 the lowest. Priorities 0 to 63, 64 to 127, 128 to 191
# and 192 to 255 are four levels; an event overtakes those of a later level, also of its own flow.
script = """
new 0 0 3 128 1
new 0 0 5 10 2
new 0 1 7 128 3
sweep
deq 1 4
"""

[[queue]]
kind = "atomic"
slots = 4

# Control messages: served before queue 0.
[[queue]]
kind = "atomic"
slots = 4
priority = 10

# Port 0 brings events in.
[[port]]
threshold = 8
depth = 4
replies = 4
implicit = false
links = []

# Port 1 is a worker on both queues.
[[port]]
threshold = 8
depth = 4
replies = 4
implicit = false
links = [0, 1]
"#;

pub(crate) const BACKPRESSURE: &str =
    r#"# Backpressure: a port that brings events in may not fill the device. Its threshold leaves room for the forwards of the workers.
#
#     ./evsched play < examples/backpressure.toml

limit = 4       # nb_events_limit
quantum = 1     # how many credits a port draws at a time
sweep = 8

# Two credits may be in use where port 0 draws one, so the third NEW is refused, as an event that
# rte_event_enqueue_new_burst doesn't take. It is taken when it is tried again after the worker has released two events.
script = """
new 0 0 7 128 1
new 0 0 7 128 2
new 0 0 7 128 3
sweep
deq 1 4
rel 1
rel 1
new 0 0 7 128 3
sweep
"""

[[queue]]
kind = "atomic"
slots = 4

# Port 0 brings events in.
[[port]]
threshold = 2   # new_event_threshold
depth = 4
replies = 4
implicit = false
links = []

# Port 1 is a worker.
[[port]]
threshold = 4
depth = 4
replies = 4
implicit = false
links = [0]
"#;
