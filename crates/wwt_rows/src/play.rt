//! A row as it is run.
ghost use Rattle.std.specs.Prelude.{◌≡◌, OnOk, false};
ghost use Rattle.wt_outside.specs.MemFiles.{AreNamedApart};
ghost use Rattle.wwt_rows.specs.Names.{IsNew};

use crate::change::{Change, changes};
use crate::compare::{Ran, difference};
use crate::row::{Content, Row};
use anyhow::{Context, Result};
use gate::OpenGate;
use std::alloc::Global;
use std::collections::BTreeMap;
use std::sync::Wait;
use std::thread::Threads;
use wt_outside::{MemSink, MemStore};
use wwt_run::wwt;

/// The room of the output, and that of the error sink.
const OUTPUT_ROOM: u64 = 1 << 22;

const ERROR_ROOM: u64 = 1 << 12;

/// How many workers run a machine again that a row runs by one.
const WORKERS: [&str; 3] = ["2", "3", "16"];

/// Runs a row over these files and its own, with each of its changes. Counts the runs. The first difference to what it
/// wants, if there is one.
pub fn play<R: AllocGlobal + Threads + Wait + Sync>(
    rt: &R,
    shared: &BTreeMap<String, Content>,
    row: &Row,
    runs: &mut u64,
) -> Result<Option<String>> {
    for change in &changes(rt.alloc(), row)? {
        let difference = play_changed(rt, shared, row, change, runs)?;
        if let Some(difference) = difference {
            return Ok(Some(format!(in rt.alloc(); "{change}{difference}")?));
        }
    }
    Ok(None)
}

/// Runs a row with a change, and again by several workers where it runs a machine. The first difference to what it
/// wants, if there is one.
fn play_changed<R: AllocGlobal + Threads + Wait + Sync>(
    rt: &R,
    shared: &BTreeMap<String, Content>,
    row: &Row,
    change: &Change,
    runs: &mut u64,
) -> Result<Option<String>> {
    let difference = play_words(rt, shared, row, change, &row.words, runs)?;
    if difference.is_some() {
        return Ok(difference);
    }
    let Some(rest) = words_of_run(&row.words) else {
        return Ok(None);
    };
    for workers in WORKERS {
        let words = by_workers(rt.alloc(), &row.words, rest, workers)?;
        let difference = play_words(rt, shared, row, change, &words, runs)?;
        if let Some(difference) = difference {
            return Ok(Some(format!(in rt.alloc(); "by {workers} workers: {difference}")?));
        }
    }
    Ok(None)
}

/// The words after the name of a run or a load that says no number of workers.
fn words_of_run(words: &[String]) -> Option<&[String]> {
    match words {
        [name, rest @ ..] if name.as_str() == "run" || name.as_str() == "load" => {
            let says = rest
                .iter()
                .any(|word| word.as_str().starts_with("--workers"));
            if says { None } else { Some(rest) }
        }
        _ => None,
    }
}

/// The same words with a number of workers.
fn by_workers(
    alloc: Global,
    words: &[String],
    rest: &[String],
    workers: &str,
) -> Result<Vec<String>> {
    let mut all = Vec::new(alloc);
    if let [name, ..] = words {
        all.push(name.clone()?)?;
    }
    all.push(String::from_str(alloc, "--workers")?)?;
    all.push(String::from_str(alloc, workers)?)?;
    for word in rest {
        all.push(word.clone()?)?;
    }
    Ok(all)
}

/// Runs these words over the files and with the faults of a row, and with a change. Counts the run.
fn play_words<R: AllocGlobal + Threads + Wait + Sync>(
    rt: &R,
    shared: &BTreeMap<String, Content>,
    row: &Row,
    change: &Change,
    words: &[String],
    runs: &mut u64,
) -> Result<Option<String>> {
    let alloc = rt.alloc();
    let wanted = change.wanted(row)?;
    let mut files = Vec::new(alloc);
    add_cut(alloc, &mut files, row, change.length)?;
    add_all(alloc, &mut files, &row.files)?;
    add_all(alloc, &mut files, shared)?;
    let mut store = MemStore::new(alloc, files, row.failing_reads.clone()?);
    let mut out = output(alloc, row, change)?;
    let mut err = error_sink(alloc, row, change)?;
    let mut ran = None;
    let status = wwt(
        rt, alloc, words, &mut store, &mut out, &mut err, &OpenGate, &mut ran,
    );
    *runs = runs.saturating_add(1);
    let ran = Ran {
        status: status.code(),
        out: out.bytes(),
        err: err.bytes(),
    };
    difference(alloc, ran, &wanted)
}

/// The output of a row with a change.
fn output(alloc: Global, row: &Row, change: &Change) -> Result<MemSink> {
    let mut failing = row.failing_writes.clone()?;
    if let Some(number) = change.failed_write {
        failing.push(number)?;
    }
    MemSink::new(alloc, OUTPUT_ROOM, failing, row.kept).context("no memory for the output")
}

/// The error sink of a row with a change. One that is to take nothing has no room.
fn error_sink(alloc: Global, row: &Row, change: &Change) -> Result<MemSink> {
    let room = if change.silent { 0 } else { ERROR_ROOM };
    let failing = row.failing_error_writes.clone()?;
    MemSink::new(alloc, room, failing, 0).context("no memory for the error sink")
}

/// Adds the file that is cut to this length, if one is.
fn add_cut(
    alloc: Global,
    files: &mut Vec<(String, Vec<u8>)>,
    row: &Row,
    length: Option<u64>,
) -> Result<()>
    requires { AreNamedApart files.old.items }
    ensures { OnOk result (AreNamedApart files.new.items) }
{
    if let (Some(cuts), Some(length)) = (&row.cuts, length) {
        let bytes = cuts.bytes(alloc, row, length)?;
        add(files, cuts.file.clone()?, bytes)?;
    }
    Ok(())
}

/// Adds the files whose names aren't there yet.
fn add_all(
    alloc: Global,
    files: &mut Vec<(String, Vec<u8>)>,
    named: &BTreeMap<String, Content>,
) -> Result<()>
    requires { AreNamedApart files.old.items }
    ensures { OnOk result (AreNamedApart files.new.items) }
{
    for (name, content) in named {
        let bytes = content
            .bytes(alloc)
            .context(format_args!("the file {name}"))?;
        add(files, name.clone()?, bytes)?;
    }
    Ok(())
}

/// Adds a file, unless its name is there.
fn add(files: &mut Vec<(String, Vec<u8>)>, name: String, bytes: Vec<u8>) -> Result<()>
    requires { AreNamedApart files.old.items }
    ensures { OnOk result (AreNamedApart files.new.items) }
{
    if !is_named(files, &name) {
        files.push((name, bytes))?;
    }
    Ok(())
}

/// Whether a file of that name is there.
fn is_named(files: &[(String, Vec<u8>)], name: &str) -> bool
    ensures { result ≡ false → IsNew name.now files.now }
{
    for (other, _) in files {
        if other.as_str() == name {
            return true;
        }
    }
    false
}
