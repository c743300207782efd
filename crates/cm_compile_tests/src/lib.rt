//! Tests of written features, of their skeletons when they are read back, and of differences by the public calls of their
//! crates. They are beside `cm_tests`, since the proof of one large crate takes longer than those of two small ones.
#![tactic(auto)]

#[cfg(test)]
mod tests;
