//! What a file of rows says.
use crate::wanted::Wanted;
use anyhow::{Context, Result, ensure};
use serde::Deserialize;
use serde_json::Value;
use std::alloc::Global;
use std::collections::BTreeMap;

/// Rows of one subject.
#[derive(Drop, Deserialize)]
#[serde(deny_unknown_fields)]
pub struct Group {
    /// Files that each of the rows can read, unless it has one of that name itself.
    #[serde(default)]
    pub files: BTreeMap<String, Content>,
    pub rows: Vec<Row>,
}

/// One command, with all that the program meets outside, and what is wanted of it.
#[derive(Drop, Deserialize)]
#[serde(deny_unknown_fields)]
pub struct Row {
    pub name: String,
    /// The words of the command line after the program's name.
    pub words: Vec<String>,
    /// The files that it can read. Standard input is `-`.
    #[serde(default)]
    pub files: BTreeMap<String, Content>,
    /// The numbers of the reads that fail, from 0.
    #[serde(default)]
    pub failing_reads: Vec<u64>,
    /// The numbers of the writes to the output that fail, from 0.
    #[serde(default)]
    pub failing_writes: Vec<u64>,
    /// How many bytes are kept of a write that fails.
    #[serde(default)]
    pub kept: u64,
    /// Whether it is run again with each of its writes failing in turn. What is wanted then follows from the lines of
    /// its output: one write is one line.
    #[serde(default)]
    pub each_write_fails: bool,
    /// The lengths of a file of its own that is cut short. It is run once for each of them.
    pub cuts: Option<Cuts>,
    /// The numbers of the writes to the error sink that fail, from 0.
    #[serde(default)]
    pub failing_error_writes: Vec<u64>,
    pub wanted: Wanted,
}

/// Lengths of a file that is cut short.
#[derive(Drop, Deserialize)]
#[serde(deny_unknown_fields)]
pub struct Cuts {
    pub file: String,
    /// The shortest of them.
    pub from: u64,
    /// Each of them is below this one.
    pub below: u64,
}

impl Cuts {
    /// The file's bytes that are left where it is cut to this length.
    pub fn bytes(&self, alloc: Global, row: &Row, length: u64) -> Result<Vec<u8>> {
        let content = row.files.get(&self.file);
        let mut bytes = content
            .context("no such file is there to be cut")?
            .bytes(alloc)?;
        ensure!(length < bytes.len() as u64, "no byte is cut off");
        bytes.truncate(length as usize);
        Ok(bytes)
    }
}

/// The bytes of a file.
#[derive(Drop, Deserialize)]
#[serde(rename_all = "lowercase")]
pub enum Content {
    /// These bytes of UTF-8.
    Text(String),
    /// These bytes in hexadecimal.
    Hex(String),
    /// So many bytes 0.
    Zeros(u64),
    /// The text of this value.
    Json(Value),
}

impl Content {
    /// The bytes of the file.
    pub fn bytes(&self, alloc: Global) -> Result<Vec<u8>> {
        match self {
            Content::Text(text) => Ok(text.as_bytes().to_vec(alloc)?),
            Content::Hex(text) => Ok(hex::decode(alloc, text.as_str())?),
            Content::Zeros(count) => {
                let count = usize::try_from(*count).context("too many zeros")?;
                Ok(vec![in alloc; 0; count]?)
            }
            Content::Json(value) => Ok(value.to_string(alloc)?.as_bytes().to_vec(alloc)?),
        }
    }
}
