//! Tests of the row pipeline through its public calls: statements on documents, and their results.
#![tactic(auto)]

#[cfg(test)]
mod tests;
