//! Tests of the top call: scripts, and the reports that an account of the format apart from the program gives them. They stand apart, so
//! that they don't prove the call again.
#![tactic(auto)]

#[cfg(test)]
mod builds;
#[cfg(test)]
mod consistency;
#[cfg(test)]
mod keys;
#[cfg(test)]
mod limits;
#[cfg(test)]
mod memory;
#[cfg(test)]
mod refusals;
#[cfg(test)]
mod replaying;
#[cfg(test)]
mod streams;
