//! Tests of the outside as the tools see it, apart from it so that it is proved once: each call of a fake fails in turn, and a store that lies about its
//! size or a sink that fails in mid-write, which no line of a case can spell.
#![tactic(auto)]

#[cfg(test)]
mod tests;
