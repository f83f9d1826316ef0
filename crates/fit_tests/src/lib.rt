//! The fit tried: a caller that rests on the law over runs alone, and sessions with what each call is to answer.
#![tactic(auto)]

pub mod caller;
#[cfg(test)]
mod tests;
