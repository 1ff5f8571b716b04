use n1ql_value::{Vals, Value};

/// What a row or a group gives: its result, the values of the keys of ORDER BY, and the base, by which results stand that tie.
#[derive(Drop)]
pub struct Out {
    pub result: Value,
    pub order: Vals,
    pub base: Vals,
}

/// What rows or groups give, in their order.
pub type Outs = Vec<Out>;
