//! The interface of a weighing, what a span of readings costs by any measure that keeps it, and what makers of weighings
//! share: the verdict on a next reading, the test of a span, and rules with their refusals.
#![tactic(auto)]

pub mod rule;
pub mod span;
pub mod verdict;
pub mod weighing;
