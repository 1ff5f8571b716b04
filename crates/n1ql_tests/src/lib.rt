//! Tests of the language through its public calls: texts as tokens, as trees, as statements, and as values.
#![tactic(auto)]

#[cfg(test)]
mod tests;
