//! Figures that were worked out by hand, as one theorem that the checker computes.
#![tactic(auto)]

ghost use Rattle.figures.specs.Figures.{FiguresStand};

/// The theorem: every figure holds, by the definitions that the contracts of the calls cite.
pub fn figures_stand()
    ensures value { FiguresStand }
{}
