//! Tests of what is told of a stream, each call by itself: places, steps, reasons, causes, marks, and audits that are watched.
#![tactic(auto)]

#[cfg(test)]
mod tests;
