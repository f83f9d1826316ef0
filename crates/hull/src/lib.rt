//! Convex hulls, and the farthest corner from each of a hull's corners.
#![tactic(auto)]

mod calls;
pub mod corner;
mod farthest;
pub mod reach;
mod shape;
pub mod swings;
pub mod table;
mod widest;
