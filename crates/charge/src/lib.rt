//! The charge: a weighing whose every span costs a fixed sum more than in the weighing below.
#![tactic(auto)]

ghost use Rattle.std.specs.Prelude.{◌≡◌};
ghost use Rattle.charge.specs.Charges.{charge_fits, charged, StillCharged};
ghost use Rattle.weighing.specs.Did.{TakeDid, DropDid, WipeDid, WeighDid, LevelsKept};
ghost use Rattle.std.proofs.Common.{arith, rules};
ghost use Rattle.charge.specs.ChargeWeighingLemmas.{held_below};

use refusal::Refusal;
use weighing::rule::require;
use weighing::weighing::Weighing;

const GREATEST_CHARGE: u64 = 1 << 28;

const GREATEST_TOP: u64 = (1 << 59) - 1;

/// Adds `charge` to each weight of `inner`; all else is as there. A charge above 2^28, or one that
/// brings the top above 2^59 - 1, makes a misfit: it holds and takes nothing, and leaves `inner` alone.
#[derive(Drop)]
pub struct Charge<W> {
    inner: W,
    charge: u64,
}

impl<W: Weighing> Charge<W> {
    /// Charges a weighing with whatever it holds.
    pub fn new(inner: W, charge: u64) -> Charge<W>
        ensures value { (result.inner ≡ inner) × (result.charge ≡ charge) }
    {
        Charge { inner, charge }
    }

    // Asked anew by each call. Where a misfit answers 0 and no refusal, `if` and `else` say so most plainly.
    fn fits(&self) -> bool
        ensures value { result ≡ charge_fits W.Weighing self.now }
    {
        self.charge <= GREATEST_CHARGE && self.inner.top() + self.charge <= GREATEST_TOP
    }
}

// What a call leaves as it was stands at each call: an invariant knows no state before.
impl<W: Weighing> Weighing for Charge<W> {
    ghost held = { (charged W.Weighing).held };

    ghost weight = { (charged W.Weighing).weight };

    ghost level = { (charged W.Weighing).level };

    ghost verdict = { (charged W.Weighing).verdict };

    ghost top = { (charged W.Weighing).top };

    ghost count = { (charged W.Weighing).count };

    ghost few = { Prim.search rules };

    ghost bounded = { Prim.search rules };

    ghost levelled = { Prim.search rules };

    ghost topped = { Prim.search rules };

    ghost counted = { Prim.search rules };

    ghost known = { Prim.search rules };

    ghost full = { Prim.search rules };

    ghost quadrangle = { λ w a b c d h1 h2 h3 h4.
        let inside = held_below _ (W.Weighing.held w.inner) d (omega arith) h4 in
        omega (arith, W.Weighing.quadrangle w.inner a b c d h1 h2 h3 inside) };

    fn verdict(&self, reading: u32) -> Option<Refusal> {
        if self.fits() {
            self.inner.verdict(reading)
        } else {
            Some(Refusal::Misfit)
        }
    }

    fn take(&mut self, reading: u32) -> Result<usize, Refusal>
        ensures answer { TakeDid (charged W.Weighing) self.old self.new reading result }
        ensures levels { LevelsKept (charged W.Weighing) self.old self.new }
        ensures same { StillCharged W.Weighing self.old self.new }
    {
        require(self.fits(), Refusal::Misfit)?;
        self.inner.take(reading)
    }

    fn drop_last(&mut self) -> Result<usize, Refusal>
        ensures answer { DropDid (charged W.Weighing) self.old self.new result }
        ensures levels { LevelsKept (charged W.Weighing) self.old self.new }
        ensures same { StillCharged W.Weighing self.old self.new }
    {
        require(self.fits(), Refusal::NothingHeld)?;
        self.inner.drop_last()
    }

    fn wipe(&mut self) -> usize
        ensures answer { WipeDid (charged W.Weighing) self.old self.new result }
        ensures levels { LevelsKept (charged W.Weighing) self.old self.new }
        ensures same { StillCharged W.Weighing self.old self.new }
    {
        if self.fits() { self.inner.wipe() } else { 0 }
    }

    fn weigh(&mut self, a: usize, b: usize) -> Result<u64, Refusal>
        ensures answer { WeighDid (charged W.Weighing) self.old self.new a b result }
        ensures levels { LevelsKept (charged W.Weighing) self.old self.new }
        ensures same { StillCharged W.Weighing self.old self.new }
    {
        require(self.fits(), Refusal::NoSuchPlace)?;
        let weight = self.inner.weigh(a, b)?;
        Ok(weight + self.charge)
    }

    fn level(&self, a: usize, b: usize) -> Result<u32, Refusal> {
        require(self.fits(), Refusal::NoSuchPlace)?;
        self.inner.level(a, b)
    }

    fn count(&self) -> u64 {
        self.inner.count()
    }

    fn held(&self) -> usize {
        if self.fits() { self.inner.held() } else { 0 }
    }

    fn top(&self) -> u64 {
        if self.fits() {
            self.inner.top() + self.charge
        } else {
            0
        }
    }
}
