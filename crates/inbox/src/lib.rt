//! An inbox that threads share: each puts in the messages of its own sources, and one takes them out.
//!
//! An [`Inbox`] is opened with one [`Pass`], which has all sources and may take. A pass is split by its sources and
//! joined again. Each pass knows what was put in through it, and what it took; its calls say so.
#![tactic(auto)]

mod inbox;
mod view;

pub use self::inbox::{Inbox, Pass};
