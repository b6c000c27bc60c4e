//! How many rows were run, how often, and how many of them differ.
use std::fmt::{self, Display, Formatter, Write};

/// Counts of rows.
#[derive(Clone, Copy, Default)]
pub struct Sum {
    pub rows: u64,
    /// How many commands were run for them.
    pub runs: u64,
    pub differ: u64,
}

impl Sum {
    /// Counts a row.
    pub fn count(&mut self, differs: bool) {
        self.rows = self.rows.saturating_add(1);
        if differs {
            self.differ = self.differ.saturating_add(1);
        }
    }
}

impl Display for Sum {
    fn fmt<W: Write>(&self, f: &mut Formatter<W>) -> fmt::Result {
        write!(
            f,
            "{} rows in {} runs, {} differ",
            self.rows, self.runs, self.differ
        )
    }
}
