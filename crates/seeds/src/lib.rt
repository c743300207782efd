//! A seed for tests: the hashes of maps are the same in each run.
//!
//! ```
//! use seeds::fixed_seed;
//! use std::hash::RandomState;
//! use std::io;
//!
//! fn two_seeds() -> io::Result<(RandomState, RandomState)> {
//!     Ok((fixed_seed()?, fixed_seed()?))
//! }
//! ```
//!
//! No crate of the product uses it: the program takes its seed from the system.
#![tactic(auto)]

use std::hash::RandomState;
use std::io;
use std::random::RandomSource;

/// A source of bytes that are all alike.
struct Alike;

impl RandomSource for Alike {
    fn fill_bytes(&self, buf: &mut [u8]) -> io::Result<()> {
        buf.fill(7);
        Ok(())
    }
}

/// A seed that is the same in each run.
///
/// # Errors
/// None that its source of bytes makes.
pub fn fixed_seed() -> io::Result<RandomState> {
    RandomState::new(&Alike)
}
