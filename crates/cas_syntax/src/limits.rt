//! The limits of module texts.

/// The most statements nested in each other.
pub const DEPTH_LIMIT: usize = 200;

/// The most tokens of an expression that is in no other.
pub const TOKEN_LIMIT: usize = 1000;
