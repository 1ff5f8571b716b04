//! Tests of plans, from the texts of indexes and statements: which index answers, which spans of it are read, and whether it covers. They
//! stand on the crates of the language and of the catalog, which the planner doesn't need.
#![tactic(auto)]

#[cfg(test)]
mod arrays;
#[cfg(test)]
mod catalogs;
#[cfg(test)]
mod choices;
#[cfg(test)]
mod coverings;
#[cfg(test)]
mod plans;
#[cfg(test)]
mod ranges;
