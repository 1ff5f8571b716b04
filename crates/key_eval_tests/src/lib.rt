//! Tests of the rows of mutations. They stand apart, so that the crate isn't proved twice.
#![tactic(auto)]

#[cfg(test)]
mod tests;
