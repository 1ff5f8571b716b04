//! Tests of histories, and of scripts and reports as text, in a crate above them, so that they don't prove them again.
#![tactic(auto)]

#[cfg(test)]
mod histories;
#[cfg(test)]
mod report_lines;
#[cfg(test)]
mod showing;
#[cfg(test)]
mod tests;
