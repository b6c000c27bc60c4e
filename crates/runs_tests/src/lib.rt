//! Tests of what runs: a node, its station, an inbox, an engine, the copies in it, the report, and the top call.
#![tactic(auto)]

#[cfg(test)]
mod copies;
#[cfg(test)]
mod engines;
#[cfg(test)]
mod event_rows;
#[cfg(test)]
mod events;
#[cfg(test)]
mod inboxes;
#[cfg(test)]
mod interleavings;
#[cfg(test)]
mod listings;
#[cfg(test)]
mod loads;
#[cfg(test)]
mod reports;
#[cfg(test)]
mod stations;
#[cfg(test)]
mod top;
