//! Tests of what is declared and of attempts in want of memory: each call that takes memory is met with ever more of it, until it
//! answers. They are beside `scarce_tests`, since the proof of one large crate takes longer than those of two small ones.
#![tactic(auto)]

#[cfg(test)]
mod tests;
