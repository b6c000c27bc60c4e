//! The messages that wait at a node, in rising order of their keys, and a counter of the calls that ask for them.
//!
//! Contracts see a [`Queue`] as the list of its messages, and [`Steps`] as the number of steps taken so far. Each
//! [`insert`](Queue::insert), [`peek`](Queue::peek) and [`pop`](Queue::pop) takes exactly one.
#![tactic(auto)]

mod occupied;
mod queue;
mod ring;
mod slots;
mod sorted;
mod steps;

pub use queue::Queue;
pub use steps::Steps;
