//! Tests of devices, feeds, envelopes, declarations and attempts by the public calls of their crates. They are a crate of their own
//! since a crate with tests is proved twice.
#![tactic(auto)]

#[cfg(test)]
mod tests;
