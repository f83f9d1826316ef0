//! Runs of a fit: any call of it as one step, a list of calls as one run, and the law over all of them.
#![tactic(auto)]

pub mod run;
pub mod step;
