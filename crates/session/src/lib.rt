//! A session at the bench: a fit is opened, and each line after the first is a call of it, told by a reply.
#![tactic(auto)]

mod first;
mod later;
mod listener;
mod whole;

pub use first::{open, opened};
pub use later::{perform, refused};
pub use listener::Listener;
pub use whole::{answer_lines, conduct, fill, talk};
