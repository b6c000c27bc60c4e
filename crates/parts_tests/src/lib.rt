//! Tests of the parts of a machine: its numbers, words and instructions, memories, messages, directory and records.
#![tactic(auto)]

#[cfg(test)]
mod annotations;
#[cfg(test)]
mod barrier;
#[cfg(test)]
mod cache;
#[cfg(test)]
mod counters;
#[cfg(test)]
mod decoding;
#[cfg(test)]
mod directory;
#[cfg(test)]
mod execution;
#[cfg(test)]
mod mesh;
#[cfg(test)]
mod numbers;
#[cfg(test)]
mod private_memory;
#[cfg(test)]
mod protocol;
#[cfg(test)]
mod queue;
#[cfg(test)]
mod records;
#[cfg(test)]
mod simulation;
#[cfg(test)]
mod tags;
#[cfg(test)]
mod traps;
#[cfg(test)]
mod words;
