//! Weighings of readings that never fall: the ceiling, held at a span's last reading, and the middle, held at its middle one.
#![tactic(auto)]

pub mod ceiling;
pub mod middle;
mod readings;
mod row;
