use index_def::IndexDef;
use std::sync::Arc;

/// The definition of an index with its number.
#[derive(Drop)]
pub struct NumberedDef {
    pub number: u32,
    pub def: Arc<IndexDef>,
}
