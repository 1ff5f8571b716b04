//! Expressions of N1QL: their trees, their grammar and the resolution of names. SELECT and statements on indexes: their trees.
#![tactic(auto)]

mod agg;
mod callee;
mod create;
mod ddl;
mod expr;
mod key;
mod keyword;
pub mod laws;
mod names;
mod order;
mod resolution;
mod scope;
mod select_resolution;
mod selection;
mod term;
mod test;
mod token_class;
mod unnest;
mod unresolved_expr;

pub use agg::Agg;
pub use callee::{Callee, callee_of};
pub use create::Create;
pub use ddl::Ddl;
pub use expr::{Expr, Exprs};
pub use key::{Key, Keys};
pub use keyword::Keyword;
pub use names::{Names, copy_names};
pub use order::{Order, Orders};
pub use resolution::resolve;
pub use scope::Scope;
pub use select_resolution::resolve_select;
pub use selection::{Select, Selection, UnresolvedSelect};
pub use term::{Term, Terms};
pub use test::Test;
pub use token_class::TokenClass;
pub use unnest::{Unnest, Unnests};
pub use unresolved_expr::{UnresolvedExpr, UnresolvedExprs};
