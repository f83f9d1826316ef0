//! Tests of the row search: a sheet to search, a caller that rests on the search's promise alone, and the cases.
#![tactic(auto)]

pub mod blocks;
pub mod caller;
#[cfg(test)]
mod tests;
