//! What is wanted of a row, and of each of its runs.
use anyhow::{Context, Result, bail, ensure};
use serde::Deserialize;

/// The status of a run whose output can't be written, and its line.
const WRITE_FAULT: u8 = 9;

const WRITE_FAILED: &str = "wwt: write failed";

/// What is wanted of a command.
#[derive(Drop, Deserialize)]
#[serde(deny_unknown_fields)]
pub struct Wanted {
    /// The exit status of the program.
    pub status: u8,
    /// The lines of the whole output. It ends as the last of them does.
    pub output: Option<Vec<String>>,
    /// Whether the output ends within its last line, as no newline follows it.
    #[serde(default)]
    pub cut: bool,
    /// Some lines of the output, in their order.
    pub lines: Option<Vec<String>>,
    /// The line of the error sink. No such line where this is left out.
    pub error: Option<String>,
}

/// What is wanted of one run.
#[derive(Clone, Copy)]
pub struct Want<'a> {
    pub status: u8,
    pub output: Output<'a>,
    /// The line of the error sink, if there is to be one.
    pub error: Option<&'a str>,
}

/// What is wanted of the output.
#[derive(Clone, Copy)]
pub enum Output<'a> {
    /// Exactly these lines, and then the begin of a further one.
    Whole(&'a [String], &'a [u8]),
    /// These lines among others, in this order.
    Some(&'a [String]),
}

impl Wanted {
    /// What is wanted where all goes as the row says.
    pub fn plain(&self) -> Result<Want<'_>> {
        Ok(Want {
            status: self.status,
            output: self.output()?,
            error: self.error.as_ref().map(String::as_str),
        })
    }

    /// What is wanted where the error sink takes nothing.
    pub fn silent(&self) -> Result<Want<'_>> {
        Ok(Want {
            status: self.status,
            output: self.output()?,
            error: None,
        })
    }

    /// What is wanted where the write of this number fails, and so many of its bytes are kept. A write that never comes
    /// changes nothing.
    pub fn with_failed_write(&self, number: u64, kept: u64) -> Result<Want<'_>> {
        let lines = self.lines_to_fail()?;
        let (before, after) = lines
            .split_at_checked(usize::try_from(number).context("too many writes")?)
            .context("more writes than lines")?;
        let Some(line) = after.first() else {
            return self.plain();
        };
        let kept = line
            .as_bytes()
            .get(..usize::try_from(kept).context("too many bytes")?)
            .context("a line is shorter than what is kept of it")?;
        Ok(Want {
            status: WRITE_FAULT,
            output: Output::Whole(before, kept),
            error: Some(WRITE_FAILED),
        })
    }

    /// The lines of an output of which each write can fail.
    pub fn lines_to_fail(&self) -> Result<&[String]> {
        match self.output()? {
            Output::Whole(lines, rest) if rest.is_empty() && self.error.is_none() => Ok(lines),
            _ => bail!("only the writes of a whole output can fail in turn"),
        }
    }

    /// What is wanted of the output. Refuses a row that doesn't say it, or says it twice.
    pub fn output(&self) -> Result<Output<'_>> {
        match (&self.output, &self.lines) {
            (Some(lines), None) => match (self.cut, lines.split_last()) {
                (false, _) => Ok(Output::Whole(lines, b"")),
                (true, Some((rest, lines))) => Ok(Output::Whole(lines, rest.as_bytes())),
                (true, None) => bail!("nothing is there to be cut"),
            },
            (None, Some(lines)) => {
                ensure!(!lines.is_empty(), "no line is wanted");
                ensure!(!self.cut, "only a whole output can be cut");
                Ok(Output::Some(lines))
            }
            (None, None) => bail!("no output is wanted"),
            (Some(_), Some(_)) => bail!("the output is wanted whole and in part"),
        }
    }
}
