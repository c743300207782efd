//! Tests of feature files by the public calls of their crates: which files paths name, and what is missing of them. They are a
//! crate of their own since a crate with tests is proved twice.
#![tactic(auto)]

#[cfg(test)]
mod tests;
