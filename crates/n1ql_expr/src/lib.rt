//! The value of an expression, the operands of its ANDs, and equality of expressions.
#![tactic(auto)]

mod binding;
mod conjunction;
mod copies;
mod env;
mod equality;
mod evaluation;
mod frames;
mod key_copies;
pub mod laws;
mod made;
mod operand;
mod scope;

pub use binding::Binding;
pub use conjunction::{Conjuncts, conjuncts, conjuncts_in};
pub use copies::copy;
pub use env::Env;
pub use equality::same;
pub use evaluation::eval;
pub use frames::Frames;
pub use key_copies::copy_keys;
pub use scope::Scope;
