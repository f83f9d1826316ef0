//! The weighings tried at their edges, and a weighing of a user's own.
#![tactic(auto)]

pub mod stairs;
#[cfg(test)]
mod tests;
