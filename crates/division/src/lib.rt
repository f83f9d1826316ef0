//! Divisions of readings into spans: the order of their costs, and the table of tallies and last cuts
//! from which the best one is read off.
#![tactic(auto)]

ghost use Rattle.division.specs.Divisions.{BestIsOne, BestIsThere};

pub mod cost;
pub mod table;

/// There is one best division of some readings into some spans, and no second, whatever the weights.
pub fn best_stands()
    ensures one { BestIsOne }
    ensures there { BestIsThere }
{}
