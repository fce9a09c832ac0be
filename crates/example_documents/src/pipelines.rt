//! Examples of pipelines.

pub(crate) const THREE_STAGES: &str =
    r#"# Three stages: an ordered one adds 1, an atomic one drops the even payloads, and a parallel one passes what comes.
# ./evsched run --workers 2 < examples/three-stages.toml
limit = 32
quantum = 1
sweep = 8
depth = 4
replies = 8
# Flow, priority and payload of each event.
trace = """
7 128 1
7 128 2
9 0 3
7 255 4
9 0 6
"""
[[stage]]
kind = "ordered"
order = 8
action = "add 1"
[[stage]]
kind = "atomic"
slots = 4
action = "drop 2"
[[stage]]
kind = "parallel"
"#;

pub(crate) const DROPPING_STAGES: &str =
    r#"# A sieve: two atomic stages drop the multiples of 2 and of 3, and the last, an ordered one, passes the rest. Each slot of an atomic
# stage has a lane of its own, which the workers claim.
# ./evsched run --workers 4 < examples/dropping-stages.toml
limit = 64
quantum = 2
sweep = 8
depth = 8
replies = 8
serving = "flows"
trace = """
1 0 5
2 0 6
1 0 7
2 0 9
1 64 10
2 0 11
1 0 12
1 0 13
"""
[[stage]]
kind = "atomic"
slots = 8
action = "drop 2"
[[stage]]
kind = "atomic"
slots = 8
action = "drop 3"
[[stage]]
kind = "ordered"
order = 16
"#;
