//! Tests of evaluation: expressions of a table and their values. They stand apart, so that the crate isn't proved twice.
#![tactic(auto)]

#[cfg(test)]
mod tables;
#[cfg(test)]
mod tests;
