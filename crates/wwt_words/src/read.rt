ghost use Rattle.std.specs.Prelude.{◌≡◌, ◌≤◌, ◌^◌, IfOk, IfSome};
ghost use Rattle.clap.specs.Words.{found_of, rows_of};
ghost use Rattle.clap.specs.Walk.{first_of};
ghost use Rattle.wwt_words.specs.Declarations.{run_command, check_command, load_command, dis_command, flat_command};
ghost use Rattle.wwt_words.specs.Numbers.{option_number_of};
ghost use Rattle.wwt_words.specs.Words.{Reads, command_of, command_named, read_by, run_of, check_of, load_of, dis_of, flat_of, workers_of, is_set, texts_of};

use crate::arguments::{read_by, text};
use crate::command::{Command, WordFault};
use crate::declaration::{check_command, dis_command, flat_command, load_command, run_command};
use crate::number::number;
use crate::word::Word;
use clap::ArgMatches;
use std::alloc::Global;

/// The command that the words of a command line call for. Usage exactly where they call for none.
#[tactic(auto, unfolding(crate::specs::Words::command_of))]
pub fn read_words(alloc: Global, words: &[String]) -> Result<Command, WordFault>
    ensures { Reads (command_of (texts_of words.now)) result }
{
    match words {
        [name, rest @ ..] => read_named(alloc, name.as_str(), rest),
        [] => Err(WordFault::Usage),
    }
}

/// The command of a name, with the words after it.
fn read_named(alloc: Global, name: &str, words: &[String]) -> Result<Command, WordFault>
    ensures { Reads (command_named name.now (texts_of words.now)) result }
{
    match name {
        "run" => read_run(alloc, words),
        "check" => read_check(alloc, words),
        "load" => read_load(alloc, words),
        "dis" => read_dis(alloc, words),
        "flat" => read_flat(alloc, words),
        _ => Err(WordFault::Usage),
    }
}

#[tactic(auto, using(crate::proofs::Declared::run_is_simple))]
fn read_run(alloc: Global, words: &[String]) -> Result<Command, WordFault>
    ensures { Reads (read_by run_command run_of (texts_of words.now)) result }
{
    let matches = read_by(run_command(alloc)?, words)?;
    let workers = workers(&matches)?;
    let budget = option_number(&matches, "budget", 1, 1 << 40)?;
    let machine = operand(alloc, &matches, "machine")?;
    Ok(Command::Run {
        workers,
        trace: is_set(&matches, "trace"),
        memory: is_set(&matches, "memory"),
        budget,
        machine,
    })
}

#[tactic(auto, using(crate::proofs::Declared::check_is_simple))]
fn read_check(alloc: Global, words: &[String]) -> Result<Command, WordFault>
    ensures { Reads (read_by check_command check_of (texts_of words.now)) result }
{
    let matches = read_by(check_command(alloc)?, words)?;
    let machine = operand(alloc, &matches, "machine")?;
    Ok(Command::Check { machine })
}

#[tactic(auto, using(crate::proofs::Declared::load_is_simple))]
fn read_load(alloc: Global, words: &[String]) -> Result<Command, WordFault>
    ensures { Reads (read_by load_command load_of (texts_of words.now)) result }
{
    let matches = read_by(load_command(alloc)?, words)?;
    let Some(text) = text(&matches, "number") else {
        return Err(WordFault::Usage);
    };
    let Some(number) = number(text, 0, 9999) else {
        return Err(WordFault::Usage);
    };
    let workers = workers(&matches)?;
    Ok(Command::Load { number, workers })
}

#[tactic(auto, using(crate::proofs::Declared::dis_is_simple))]
fn read_dis(alloc: Global, words: &[String]) -> Result<Command, WordFault>
    ensures { Reads (read_by dis_command dis_of (texts_of words.now)) result }
{
    let matches = read_by(dis_command(alloc)?, words)?;
    let image = operand(alloc, &matches, "image")?;
    Ok(Command::Dis { image })
}

#[tactic(auto, using(crate::proofs::Declared::flat_is_simple))]
fn read_flat(alloc: Global, words: &[String]) -> Result<Command, WordFault>
    ensures { Reads (read_by flat_command flat_of (texts_of words.now)) result }
{
    read_by(flat_command(alloc), words)?;
    Ok(Command::Flat)
}

/// How many workers.
fn workers(matches: &ArgMatches) -> Result<u32, WordFault>
    ensures { Reads (workers_of (rows_of (found_of matches.now))) result }
{
    match option_number(matches, "workers", 1, 16)? {
        Some(number) => Ok(number as u32),
        None => Ok(1),
    }
}

/// The number of an option, if the option stands there.
fn option_number(
    matches: &ArgMatches,
    name: &str,
    least: u64,
    greatest: u64,
) -> Result<Option<u64>, WordFault>
    ensures value { Reads (option_number_of least greatest (first_of name.now (rows_of (found_of matches.now)))) result }
    ensures range { IfOk result (λ found. IfSome found (λ number. number ≤ greatest)) }
{
    let Some(text) = text(matches, name) else {
        return Ok(None);
    };
    match number(text, least, greatest) {
        Some(number) => Ok(Some(number)),
        None => Err(WordFault::Usage),
    }
}

/// The word of an operand.
fn operand(alloc: Global, matches: &ArgMatches, name: &str) -> Result<Word, WordFault>
    ensures { Reads (first_of name.now (rows_of (found_of matches.now))) result }
{
    let Some(text) = text(matches, name) else {
        return Err(WordFault::Usage);
    };
    Ok(Word::new(String::from_str(alloc, text)?))
}

/// Whether a flag stands there.
fn is_set(matches: &ArgMatches, name: &str) -> bool
    ensures { result ≡ is_set name.now (rows_of (found_of matches.now)) }
{
    text(matches, name) == Some("true")
}
