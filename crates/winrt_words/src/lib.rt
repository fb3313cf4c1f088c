//! The words of a call, from the command's name on: which command they name and what they give it. The first word is matched as it stands, and the others
//! are read by one `clap` command each; words that its form doesn't take name no command.
#![tactic(auto)]

mod command;
mod examples;
mod form;
mod given;

pub use command::{Command, command_of};
pub use examples::examples_are_so;
pub use given::Given;
