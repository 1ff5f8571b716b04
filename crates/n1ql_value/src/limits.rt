//! The limits of the service, each told once. The definitions have the same numbers, in specs/Limits.antt.

/// The greatest number of bytes of an input.
pub const MAX_INPUT_BYTES: usize = 4_194_304;

/// The greatest number of lines of a script, without its header and blank ones.
pub const MAX_LINES: usize = 65_536;

/// The greatest product of a script's vBuckets and those lines.
pub const MAX_PRODUCT: usize = 4_194_304;

/// The greatest number of scans and queries of a script.
pub const MAX_SCANS: usize = 1_024;

/// The greatest number of vBuckets.
pub const MAX_VBUCKETS: usize = 1_024;

/// The greatest number of clients.
pub const MAX_CLIENTS: usize = 64;

/// The greatest number of indexing threads.
pub const MAX_WORKERS: usize = 16;

/// The greatest size of a batch of mutations.
pub const MAX_BATCH: usize = 4_096;

/// The greatest number of indexes that the statements of a script may create.
pub const MAX_INDEXES: usize = 16;

/// The greatest number of keys of an index.
pub const MAX_KEYS: usize = 16;

/// The greatest number of bytes of a document's id.
pub const MAX_ID_BYTES: usize = 250;

/// The greatest number of bytes of a keyspace's name.
pub const MAX_KEYSPACE_BYTES: usize = 100;

/// The greatest number of tokens of a statement.
pub const MAX_TOKENS: usize = 512;

/// The greatest number of spans of a scan.
pub const MAX_SPANS: usize = 64;

/// The greatest number of ranges of a span.
pub const MAX_RANGES: usize = 16;

/// The greatest number of bytes of the text of one answer.
pub const MAX_ANSWER_BYTES: usize = 1_048_576;
