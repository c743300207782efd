//! Tests of the commands over readers and writers in memory. They are a crate of their own since a crate with tests is proved twice.
#![tactic(auto)]

#[cfg(test)]
mod tests;
