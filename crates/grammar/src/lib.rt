//! Grammars stated as productions, readers with one token of look-ahead, and the laws that join the two.
//!
//! A production is a relation between a whole list of tokens and a value; a reader is a function from a list of tokens to a value and the tokens that are left, or to a fault. The laws say that what a reader takes is spelled as the production says, that what is spelled so is read, and that a fault stands at the first token with which no list of the production goes on.
#![tactic(auto)]

/// Nothing runs here: the crate has definitions and laws, which the parsers above cite.
pub fn grammar() {}
