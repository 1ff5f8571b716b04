//! The locked state of a script's run: what was accepted, which indexes are live, what is newest of each, and what each client is at.
//!
//! Each call that changes it adds one event. Whatever the order of the calls, the events are a legal history of the script, and
//! the state is what they leave. This crate makes no rows and runs no stream.
#![tactic(auto)]

mod beginning;
mod creation;
mod defined;
mod ending;
mod held;
mod hub;
mod known;
mod live_indexes;
mod newest;
mod part;
mod parts;
mod picked;
mod published;
mod stage;
mod started;
mod went_online;

use dcp_stream::Piece;
pub use defined::Defined;
pub use held::Held;
pub use hub::Hub;
use n1ql_value::ListOf;
pub use picked::Picked;
pub use published::Published;
pub use stage::Stage;
pub use started::Started;
pub use went_online::WentOnline;

/// Pieces of streams, in order.
pub type Pieces = ListOf<Piece>;
