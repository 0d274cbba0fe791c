//! The bytes of parts of a journal's records.

/// The bytes of a record before its body: 1 for its gate, and 4 for the length of the body.
pub const RECORD_HEAD: u64 = 5;

/// The bytes of the body of a Close.
pub const CLOSE_BODY: u64 = 10;

/// The bytes of the body of an Abandon.
pub const ABANDON_BODY: u64 = 5;

/// The most bytes that name a pool in a body: 1 for its tag, 1 for the length of its name, and a name of 16.
pub const POOL_BYTES: u64 = 18;
