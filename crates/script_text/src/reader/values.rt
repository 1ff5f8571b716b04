//! What the values of members say: texts, numbers, vectors, spans and requests.

pub(crate) mod full_vector;
pub(crate) mod members;
pub(crate) mod request;
pub(crate) mod span_forms;
pub(crate) mod spans;
pub(crate) mod sparse_vector;
