//! The program `core_runs`: the scheduling core goes through known runs, and through runs that are drawn at random side by side with
//! a plain core that finds all its answers by search. It says of each device whether the cores did alike, and of each known run
//! whether it went as known. Where something came otherwise, it says what, and ends with status 1.
#![tactic(auto)]

mod comparison;
mod device;
mod drawn_moves;
mod fault;
mod known_runs;
mod moves;
mod ordered_runs;
mod pair;
mod plain_run;
mod rows;
mod run;
mod turns;

use comparison::{COMPARED, compare};
use fault::RunFault;
use std::process::ExitCode;
use turns::{KnownRun, play};

/// Prints how what has this name went: so, where it went as it must. Whether it did.
fn told<R: Print>(
    rt: &R,
    name: &str,
    so: &str,
    went: Result<(), RunFault>,
) -> Result<bool, RunFault> {
    let (printed, is_so) = match went {
        Ok(()) => (println!(rt; "{name}: {so}"), true),
        Err(RunFault::Otherwise(what)) => (println!(rt; "{name}: {what}"), false),
        Err(fault) => return Err(fault),
    };
    match printed {
        Ok(()) => Ok(is_so),
        Err(_) => Err(RunFault::Write),
    }
}

/// Compares the cores on each device: whether they did alike on all.
fn compare_all<R: AllocGlobal + Print>(rt: &R) -> Result<bool, RunFault> {
    let mut are_alike = true;
    for compared in &COMPARED {
        let went = compare(rt.alloc(), compared);
        are_alike &= told(rt, compared.name, "alike, and varied", went)?;
    }
    Ok(are_alike)
}

/// Plays each of the known runs: whether all went as known.
fn play_all<R: AllocGlobal + Print>(rt: &R, runs: &[KnownRun]) -> Result<bool, RunFault> {
    let mut are_known = true;
    for known in runs {
        let went = play(rt.alloc(), known);
        are_known &= told(rt, known.name, "as known", went)?;
    }
    Ok(are_known)
}

/// Makes all the runs: whether all went as they must.
fn run_all<R: AllocGlobal + Print>(rt: &R) -> Result<bool, RunFault> {
    let known = play_all(rt, &known_runs::RUNS)?;
    let ordered = play_all(rt, &ordered_runs::RUNS)?;
    let alike = compare_all(rt)?;
    Ok(known && ordered && alike)
}

fn main(rt: HostRuntime) -> ExitCode {
    match run_all(&rt) {
        Ok(true) => ExitCode::from(0),
        Ok(false) => ExitCode::from(1),
        Err(fault) => {
            let _ = eprintln!(rt; "core_runs: {fault}");
            ExitCode::from(1)
        }
    }
}
