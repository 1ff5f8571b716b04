//! Tests of the history lock, from several threads and from one.
#![tactic(auto)]

#[cfg(test)]
mod log;
#[cfg(test)]
mod tests;
