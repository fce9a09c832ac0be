//! The program `judge_runs`: the judge and a plain one, which reads every clause off the whole list of steps, judge transcripts that
//! are drawn at random. They judge each front of a lawful one, which nothing breaks, and each lawful one with one change. It prints
//! for each device how many there were of each verdict, then how many broke each clause, and how many were compared in all. Where
//! the two differ, it says where, and ends with status 1; so it does where none broke some clause.
#![tactic(auto)]

mod breaks;
mod clauses;
mod comparison;
mod device;
mod drawing;
mod fault;
mod mutation;
mod order;
mod plain_judge;
mod tally;
mod words;

use comparison::compare;
use device::{DEVICES, Device};
use fault::RunFault;
use mutation::CHANGES;
use plain_judge::CLAUSES;
use std::process::ExitCode;
use tally::Tally;

/// Prints how many transcripts of a kind there were of each verdict.
fn tell<R: Print>(rt: &R, device: &Device, kind: &str, tally: &Tally) -> Result<(), RunFault> {
    let (name, lawful, running) = (device.name, tally.lawful, tally.running);
    let broken = tally.broken();
    println!(rt; "{name}: {kind}: {lawful} lawful, {running} running, {broken} broken").map_err(
        |_| RunFault::Write,
    )
}

/// Compares the judges on the fronts of lawful transcripts of each device.
fn run_fronts<R: AllocGlobal + Print>(rt: &R) -> Result<Tally, RunFault> {
    let mut all = Tally::none();
    for device in &DEVICES {
        let tally = compare(rt.alloc(), device, None)?;
        tell(rt, device, "fronts", &tally)?;
        all.add(&tally);
    }
    Ok(all)
}

/// Compares the judges on lawful transcripts of the device with a change of each kind.
fn run_changes<R: AllocGlobal + Print>(rt: &R, device: &Device) -> Result<Tally, RunFault> {
    let mut all = Tally::none();
    for (change, name) in &CHANGES {
        let tally = compare(rt.alloc(), device, Some(*change))?;
        tell(rt, device, name, &tally)?;
        all.add(&tally);
    }
    Ok(all)
}

/// Prints how many broke each clause: an error where none did.
fn tell_clauses<R: AllocGlobal + Print>(rt: &R, tally: &Tally) -> Result<(), RunFault> {
    for clause in &CLAUSES {
        let count = tally.broken_of(*clause);
        println!(rt; "{clause:?}: broken by {count}").map_err(|_| RunFault::Write)?;
        if count == 0 {
            return Err(RunFault::Untried(*clause));
        }
    }
    Ok(())
}

/// Makes all the comparisons.
fn run_all<R: AllocGlobal + Print>(rt: &R) -> Result<(), RunFault> {
    let fronts = run_fronts(rt)?;
    let mut changed = Tally::none();
    for device in &DEVICES {
        changed.add(&run_changes(rt, device)?);
    }
    tell_clauses(rt, &changed)?;
    let (fronts, changed) = (fronts.all(), changed.all());
    let all = fronts.saturating_add(changed);
    println!(rt;
        "{all} transcripts judged alike: {fronts} lawful fronts, {changed} with a change"
    ).map_err(|_| RunFault::Write)
}

fn main(rt: HostRuntime) -> ExitCode {
    match run_all(&rt) {
        Ok(()) => ExitCode::from(0),
        Err(fault) => {
            let _ = eprintln!(rt; "judge_runs: {fault}");
            ExitCode::from(1)
        }
    }
}
