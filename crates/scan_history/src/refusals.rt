//! The codes of refusals, in the order in which they are tested. The definitions have the same numbers, in specs/Refusals.antt.

/// The text is no statement.
pub const PARSE: u8 = 1;

/// The statement is on another keyspace.
pub const KEYSPACE: u8 = 2;

/// There is a reason against the definition.
pub const BAD_DEFINITION: u8 = 3;

/// A live index has the name.
pub const EXISTS: u8 = 4;

/// No live index has the name.
pub const UNKNOWN_INDEX: u8 = 5;

/// The index isn't deferred.
pub const NOT_DEFERRED: u8 = 6;

/// As many indexes were created as there may be.
pub const TOO_MANY_INDEXES: u8 = 7;

/// The index isn't online.
pub const NOT_ONLINE: u8 = 8;

/// What the command began on was dropped.
pub const DROPPED: u8 = 10;
