//! The top call of the tools: from a command's words to its status, over a store and two sinks. What each status leaves and
//! when it comes is one record of the call's contract, `Answers`.
#![tactic(auto)]

mod lines;
mod merging;
mod outcome;
mod run;
mod said;
mod say;
mod set;
mod tool;

pub use tool::winrt_tool;
