//! Tests in which each call that takes memory is met with ever more of it: it is refused, or it answers.
//!
//! A call is set up with ample memory, met with a room, and judged with ample memory again. While memory is short, nothing
//! but calls that are met and look-ups and comparisons that take no memory is run.
#![tactic(auto)]

#[cfg(test)]
mod tests;
