//! The runs that a row stands for.
use crate::row::Row;
use crate::wanted::Want;
use anyhow::{Result, ensure};
use std::alloc::Global;
use std::fmt::{self, Display, Formatter, Write};

/// In what a run of a row is otherwise than the row says.
#[derive(Clone, Copy, Default)]
pub struct Change {
    /// Its file is cut to this length.
    pub length: Option<u64>,
    /// The write of this number fails.
    pub failed_write: Option<u64>,
    /// The error sink takes nothing.
    pub silent: bool,
}

impl Change {
    /// What is wanted of a row with this change.
    pub fn wanted<'a>(&self, row: &'a Row) -> Result<Want<'a>> {
        match self.failed_write {
            Some(number) => row.wanted.with_failed_write(number, row.kept),
            None if self.silent => row.wanted.silent(),
            None => row.wanted.plain(),
        }
    }
}

/// The runs of a row: of each length of a file that is cut short, or as it stands; where it is refused, each again over
/// an error sink that takes nothing; and with each of its writes failing, and one more, which never comes.
pub fn changes(alloc: Global, row: &Row) -> Result<Vec<Change>> {
    let mut all = Vec::new(alloc);
    match &row.cuts {
        Some(cuts) => {
            ensure!(cuts.from < cuts.below, "there is no length to cut to");
            for length in cuts.from..cuts.below {
                add(&mut all, row, Some(length))?;
            }
        }
        None => add(&mut all, row, None)?,
    }
    if row.each_write_fails {
        ensure!(row.failing_writes.is_empty(), "its writes fail already");
        let count = row.wanted.lines_to_fail()?.len() as u64;
        for number in 0..count.saturating_add(1) {
            all.push(Change {
                failed_write: Some(number),
                ..Change::default()
            })?;
        }
    }
    Ok(all)
}

/// Adds the runs of a row whose file is cut to this length, if it is.
fn add(all: &mut Vec<Change>, row: &Row, length: Option<u64>) -> Result<()> {
    let plain = Change {
        length,
        ..Change::default()
    };
    all.push(plain)?;
    if row.wanted.error.is_some() {
        all.push(Change {
            silent: true,
            ..plain
        })?;
    }
    Ok(())
}

impl Display for Change {
    fn fmt<W: Write>(&self, f: &mut Formatter<W>) -> fmt::Result {
        if let Some(length) = self.length {
            write!(f, "cut to {length} bytes: ")?;
        }
        if let Some(number) = self.failed_write {
            write!(f, "write {number} fails: ")?;
        }
        if self.silent {
            f.write_str("no error line is taken: ")?;
        }
        Ok(())
    }
}
