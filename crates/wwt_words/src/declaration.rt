ghost use Rattle.std.specs.Prelude.{◌≡◌, IfOk, false};
ghost use Rattle.clap.specs.Simple.{app_of};
ghost use Rattle.clap.specs.Walk.{rule_of};
ghost use Rattle.wwt_words.specs.Declarations.{plain, value_option, flag, operand, run_command, check_command, load_command, dis_command, flat_command};

use clap::{Arg, ArgAction, Command};
use std::alloc::{AllocError, Global};

/// `run [--workers W] [--trace] [--memory] [--budget B] MACHINE`.
#[tactic(auto, unfolding(crate::specs::Declarations::run_command))]
pub fn run_command<'a>(alloc: Global) -> Result<Command<'a>, AllocError>
    ensures { IfOk result (λ command. app_of command ≡ run_command) }
{
    plain(alloc, "run")
        .arg(value_option(alloc, "workers"))?
        .arg(flag(alloc, "trace"))?
        .arg(flag(alloc, "memory"))?
        .arg(value_option(alloc, "budget"))?
        .arg(operand(alloc, "machine"))
}

/// `check MACHINE`.
#[tactic(auto, unfolding(crate::specs::Declarations::check_command))]
pub fn check_command<'a>(alloc: Global) -> Result<Command<'a>, AllocError>
    ensures { IfOk result (λ command. app_of command ≡ check_command) }
{
    plain(alloc, "check").arg(operand(alloc, "machine"))
}

/// `load NUMBER [--workers W]`.
#[tactic(auto, unfolding(crate::specs::Declarations::load_command))]
pub fn load_command<'a>(alloc: Global) -> Result<Command<'a>, AllocError>
    ensures { IfOk result (λ command. app_of command ≡ load_command) }
{
    plain(alloc, "load")
        .arg(value_option(alloc, "workers"))?
        .arg(operand(alloc, "number"))
}

/// `dis IMAGE`.
#[tactic(auto, unfolding(crate::specs::Declarations::dis_command))]
pub fn dis_command<'a>(alloc: Global) -> Result<Command<'a>, AllocError>
    ensures { IfOk result (λ command. app_of command ≡ dis_command) }
{
    plain(alloc, "dis").arg(operand(alloc, "image"))
}

/// `flat`.
#[tactic(auto, unfolding(crate::specs::Declarations::flat_command))]
pub fn flat_command<'a>(alloc: Global) -> Command<'a>
    ensures { app_of result ≡ flat_command }
{
    plain(alloc, "flat")
}

/// A command that reads the words after its name, without help or version words.
fn plain<'a>(alloc: Global, name: &'a str) -> Command<'a>
    ensures { app_of result ≡ plain name.entry.now }
{
    Command::new(alloc, name)
        .no_binary_name(true)
        .disable_help_flag(true)
        .disable_version_flag(true)
}

/// An option with one value, that is kept as text.
fn value_option<'a>(alloc: Global, name: &'a str) -> Arg<'a>
    ensures rule { rule_of result ≡ value_option name.entry.now }
    ensures local { result.global ≡ false }
{
    Arg::new(alloc, name).long(name).action(ArgAction::Set)
}

/// An option without a value.
fn flag<'a>(alloc: Global, name: &'a str) -> Arg<'a>
    ensures rule { rule_of result ≡ flag name.entry.now }
    ensures local { result.global ≡ false }
{
    Arg::new(alloc, name).long(name).action(ArgAction::SetTrue)
}

/// A required operand, that is kept as text.
fn operand<'a>(alloc: Global, name: &'a str) -> Arg<'a>
    ensures rule { rule_of result ≡ operand name.entry.now }
    ensures local { result.global ≡ false }
{
    Arg::new(alloc, name).required(true).action(ArgAction::Set)
}
