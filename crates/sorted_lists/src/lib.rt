//! Lists in an order: how one gains an element, loses one, is made of any list and freed of repeats. There is no code to run
//! here: the definitions stand in specs/, and what holds of them in `laws`.
#![tactic(auto)]

pub mod laws;
