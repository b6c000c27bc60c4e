//! Tests of what the program reads: words, descriptions, images, and files and sinks.
#![tactic(auto)]

#[cfg(test)]
mod cases;
#[cfg(test)]
mod command_line;
#[cfg(test)]
mod descriptions;
#[cfg(test)]
mod generated;
#[cfg(test)]
mod host;
#[cfg(test)]
mod images;
#[cfg(test)]
mod loading;
#[cfg(test)]
mod outside;
#[cfg(test)]
mod start;
#[cfg(test)]
mod texts;
