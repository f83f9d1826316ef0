//! The input of a session, read line by line as commands.
#![tactic(auto)]

mod command;
mod digits;
mod reader;
mod split;
mod words;

pub use command::{Command, Opening};
pub use digits::value_of;
pub use reader::Reader;
