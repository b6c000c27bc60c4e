ghost use Rattle.std.specs.Prelude.{◌≡◌, ◌<◌, ◌++◌, length, codes, IfOk};
ghost use Rattle.wt_text.specs.Text.{line_end};
ghost use Rattle.wt_report.specs.Report.{outcome_text_of, outcome_line_of, number_line_of, head_text};
ghost use Rattle.wt_outside.specs.Writes.{Writes};

use crate::write::write_line;
use std::alloc::Global;
use wt_outside::{Sink, WriteFault};
use wt_params::NoMemory;
use wt_stats::{Head, Outcome};
use wt_text::Line;

/// Writes what a simulation came to.
pub(crate) fn write_head<K: Sink>(alloc: Global, head: &Head, out: &mut K) -> Result<(), WriteFault>
    ensures { Writes (head_text head.now) result K.view out.old out.new }
{
    write_outcome(alloc, head.outcome, out)?;
    write_number(alloc, b"events ", head.events, out)?;
    write_number(alloc, b"time ", head.time, out)?;
    write_number(alloc, b"quanta ", head.quanta, out)
}

fn write_outcome<K: Sink>(alloc: Global, outcome: Outcome, out: &mut K) -> Result<(), WriteFault>
    ensures { Writes (outcome_line_of outcome) result K.view out.old out.new }
{
    let line = outcome_line(alloc, outcome)?;
    write_line(&line, out)
}

fn outcome_line(alloc: Global, outcome: Outcome) -> Result<Line, NoMemory>
    ensures { IfOk result (λ line. line ≡ outcome_line_of outcome) }
{
    let mut line = Line::new(alloc, b"outcome ")?;
    line.text(outcome_text(outcome))?;
    line.end()?;
    Ok(line)
}

fn outcome_text(outcome: Outcome) -> &'static [u8]
    ensures { result.now ≡ outcome_text_of outcome }
{
    match outcome {
        Outcome::Finished => b"finished",
        Outcome::Budget => b"budget",
        Outcome::EventLimit => b"events",
        Outcome::Stalled => b"stalled",
    }
}

/// Writes a line of a text and a number.
fn write_number<K: Sink>(
    alloc: Global,
    text: &[u8],
    number: u64,
    out: &mut K,
) -> Result<(), WriteFault>
    requires { 0 < length text.now }
    ensures { Writes (number_line_of text.now number) result K.view out.old out.new }
{
    let line = number_line(alloc, text, number)?;
    write_line(&line, out)
}

fn number_line(alloc: Global, text: &[u8], number: u64) -> Result<Line, NoMemory>
    requires { 0 < length text.now }
    ensures { IfOk result (λ line. line ≡ number_line_of text.now number) }
{
    let mut line = Line::new(alloc, text)?;
    line.number(number as u128)?;
    line.end()?;
    Ok(line)
}
