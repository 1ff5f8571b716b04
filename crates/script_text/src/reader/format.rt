//! The rows of the format: which members the header and each other line have, of which kinds and in which ranges.

pub(crate) mod form;
pub(crate) mod member;
pub(crate) mod member_kind;
pub(crate) mod name;
pub(crate) mod row;
pub(crate) mod shape;
pub(crate) mod sizes;
