//! Tests of definitions: what a statement defines, or why it defines nothing. They stand apart, so that the crate isn't proved twice.
#![tactic(auto)]

#[cfg(test)]
mod definitions;
#[cfg(test)]
mod tests;
