//! Worked rows of whole commands: reads files of rows, runs each by the top call over files and sinks in memory, and
//! prints the rows that differ from what they want. The status is 1 where one differs, and 2 where the files are bad.
#![tactic(auto)]

mod change;
mod compare;
mod play;
mod row;
mod sum;
#[cfg(test)]
mod tests;
mod wanted;

use anyhow::{Context, Result, ensure};
use play::play;
use row::Group;
use std::io::Print;
use std::process::ExitCode;
use std::rt::{Env, Files};
use std::sync::Wait;
use std::thread::Threads;
use std::{env, fs};
use sum::Sum;

fn main(rt: HostRuntime) -> ExitCode {
    match run(&rt) {
        Ok(sum) if sum.differ == 0 => ExitCode::SUCCESS,
        Ok(_) => ExitCode::FAILURE,
        Err(error) => {
            let _ = eprintln!(rt; "wwt_rows: {error:#}");
            ExitCode::from(2)
        }
    }
}

/// Runs the rows of the files that the command line names.
fn run<R: Env + Files + Print + AllocGlobal + Threads + Wait + Sync>(rt: &R) -> Result<Sum> {
    let mut sum = Sum::default();
    for file in env::args(rt)?.skip(1) {
        run_file(rt, &file, &mut sum).context(format_args!("{file}"))?;
    }
    println!(rt; "{sum}")?;
    Ok(sum)
}

/// Runs the rows of a file, and prints those that differ.
fn run_file<R: Files + Print + AllocGlobal + Threads + Wait + Sync>(
    rt: &R,
    file: &str,
    sum: &mut Sum,
) -> Result<()> {
    let alloc = rt.alloc();
    let text = fs::read_to_string(rt, file)?;
    let group: Group = serde_json::from_str(alloc, &text)?;
    ensure!(!group.rows.is_empty(), "no rows");
    for row in &group.rows {
        let difference = play(rt, &group.files, row, &mut sum.runs).context(format_args!(
            "{}",
            row.name
        ))?;
        sum.count(difference.is_some());
        if let Some(difference) = difference {
            println!(rt; "{}: {difference}", row.name)?;
        }
    }
    Ok(())
}
