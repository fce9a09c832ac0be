//! The tests, and what they stand on: plans of devices, calls that one thread makes on them, and threads that run them.

/// Each row of calls must come as it says on a device of its plan, with either kind of serving; the function says what comes otherwise.
macro_rules! assert_each_row {
    ($rt:expr, $other_in:path) => {
        for row in &ROWS {
            let name = row.name;
            for serving in [Serving::Ports, Serving::Flows] {
                let plan = Plan {
                    serving,
                    ..row.plan
                };
                assert_eq!($rt; $other_in($rt.alloc(), row, &plan)?, None, "{name}");
            }
        }
    };
}

mod again;
mod answers;
mod asks;
mod calls;
mod fault;
mod left;
mod missing;
mod plans;
mod refused_stop;
mod rigs;
mod rows;
mod runs;
mod steps;
mod threads;
mod unknown_queue;
mod whole;
