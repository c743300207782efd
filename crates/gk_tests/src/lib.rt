//! Tests of lines, documents, trees and pickles by the public calls of their crates. They are in a crate of their own, since a
//! crate with tests is proved twice.
#![tactic(auto)]

#[cfg(test)]
mod tests;
