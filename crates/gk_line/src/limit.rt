//! The limit that the lines of a feature file rest on.

/// The most bytes of a feature file: 16 MiB.
pub const FEATURE_LIMIT: usize = 16_777_216;
