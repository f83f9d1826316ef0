//! The fit: the best step table of the readings that a weighing holds, settled on top of what was settled before.
#![tactic(auto)]

mod filling;
pub mod fit;
pub mod rounds;
