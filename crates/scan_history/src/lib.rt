//! Scripts and histories: what clients ask for, what happens, and what a history leaves.
#![tactic(auto)]

mod ask;
mod command;
mod done;
mod event;
mod kind;
pub mod laws;
pub mod refusals;
mod script;
mod turn;
mod what;
mod why;

pub use ask::Ask;
pub use command::Command;
pub use done::{AnswerList, Answered, Done, End, EndList};
pub use event::{Event, Events, Happened, Numbers};
pub use kind::Kind;
pub use script::{CommandLists, Commands, Script, Turns};
pub use turn::Turn;
pub use what::What;
pub use why::Why;
