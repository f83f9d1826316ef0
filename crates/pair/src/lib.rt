//! The pair: two weighings of the same readings as one, in which the first counts before the second.
#![tactic(auto)]

ghost use Rattle.std.specs.Prelude.{◌≡◌};
ghost use Rattle.weighing.specs.Did.{TakeDid, DropDid, WipeDid, WeighDid, LevelsKept};
ghost use Rattle.pair.specs.Pairs.{pair_fits, paired, StillPaired, BothTake, BothDrop, BothWipe, BothWeigh};
ghost use Rattle.pair.specs.PairsLemmas.{held_on_both};
ghost use Rattle.std.proofs.Common.{arith, rules};

use refusal::Refusal;
use weighing::rule::require;
use weighing::verdict::heed;
use weighing::weighing::Weighing;

const FIRST_TOP: u64 = (1 << 29) - 1;

const SECOND_TOP: u64 = (1 << 27) - 1;

const UNIT: u64 = 1 << 30;

/// Weighs by `first`, and where that is level by `second`. Level and count are the first's, and both
/// take, drop, wipe and weigh together. Where the first's top is above 2^29 - 1, the second's above
/// 2^27 - 1, or they do not hold as many readings, it is a misfit: it holds and takes nothing, and
/// leaves both alone.
#[derive(Drop)]
pub struct Pair<F, S> {
    first: F,
    second: S,
}

impl<F: Weighing, S: Weighing> Pair<F, S> {
    /// Pairs two weighings with whatever they hold.
    pub fn new(first: F, second: S) -> Pair<F, S>
        ensures value { (result.first ≡ first) × (result.second ≡ second) }
    {
        Pair { first, second }
    }

    // Asked anew by each call. Where a misfit answers 0 and no refusal, `if` and `else` say so most plainly.
    fn fits(&self) -> bool
        ensures value { result ≡ pair_fits F.Weighing S.Weighing self.now }
    {
        self.first.top() <= FIRST_TOP
            && self.second.top() <= SECOND_TOP
            && self.first.held() == self.second.held()
    }
}

// What a call leaves as it was stands at each call: an invariant knows no state before.
impl<F: Weighing, S: Weighing> Weighing for Pair<F, S> {
    ghost held = { (paired F.Weighing S.Weighing).held };

    ghost weight = { (paired F.Weighing S.Weighing).weight };

    ghost level = { (paired F.Weighing S.Weighing).level };

    ghost verdict = { (paired F.Weighing S.Weighing).verdict };

    ghost top = { (paired F.Weighing S.Weighing).top };

    ghost count = { (paired F.Weighing S.Weighing).count };

    ghost few = { Prim.search rules };

    ghost bounded = { Prim.search rules };

    ghost levelled = { Prim.search rules };

    ghost topped = { Prim.search rules };

    ghost counted = { Prim.search rules };

    ghost known = { Prim.search rules };

    ghost full = { Prim.search rules };

    // the sum of the laws of its sides
    ghost quadrangle = { λ w a b c d h1 h2 h3 h4.
        let inside = held_on_both _ _ (F.Weighing.held w.first) (S.Weighing.held w.second) d (omega arith) h4 in
        omega (arith, F.Weighing.quadrangle w.first a b c d h1 h2 h3 inside.0, S.Weighing.quadrangle w.second a b c d h1 h2 h3 inside.1) };

    fn verdict(&self, reading: u32) -> Option<Refusal> {
        if self.fits() {
            let first = self.first.verdict(reading);
            first.or_else(|| self.second.verdict(reading))
        } else {
            Some(Refusal::Misfit)
        }
    }

    fn take(&mut self, reading: u32) -> Result<usize, Refusal>
        ensures answer { TakeDid (paired F.Weighing S.Weighing) self.old self.new reading result }
        ensures levels { LevelsKept (paired F.Weighing S.Weighing) self.old self.new }
        ensures same { StillPaired F.Weighing S.Weighing self.old self.new }
        ensures both { BothTake F.Weighing S.Weighing self.old self.new reading result }
    {
        // both or neither: once no verdict speaks against it, neither refuses
        heed(self.verdict(reading))?;
        self.first.take(reading)?;
        self.second.take(reading)
    }

    fn drop_last(&mut self) -> Result<usize, Refusal>
        ensures answer { DropDid (paired F.Weighing S.Weighing) self.old self.new result }
        ensures levels { LevelsKept (paired F.Weighing S.Weighing) self.old self.new }
        ensures same { StillPaired F.Weighing S.Weighing self.old self.new }
        ensures both { BothDrop F.Weighing S.Weighing self.old self.new result }
    {
        require(self.fits(), Refusal::NothingHeld)?;
        self.first.drop_last()?;
        self.second.drop_last()
    }

    fn wipe(&mut self) -> usize
        ensures answer { WipeDid (paired F.Weighing S.Weighing) self.old self.new result }
        ensures levels { LevelsKept (paired F.Weighing S.Weighing) self.old self.new }
        ensures same { StillPaired F.Weighing S.Weighing self.old self.new }
        ensures both { BothWipe F.Weighing S.Weighing self.old self.new }
    {
        if self.fits() {
            self.first.wipe();
            self.second.wipe()
        } else {
            0
        }
    }

    fn weigh(&mut self, a: usize, b: usize) -> Result<u64, Refusal>
        ensures answer { WeighDid (paired F.Weighing S.Weighing) self.old self.new a b result }
        ensures levels { LevelsKept (paired F.Weighing S.Weighing) self.old self.new }
        ensures same { StillPaired F.Weighing S.Weighing self.old self.new }
        ensures both { BothWeigh F.Weighing S.Weighing self.old self.new a b result }
    {
        require(self.fits(), Refusal::NoSuchPlace)?;
        let first = self.first.weigh(a, b)?;
        let second = self.second.weigh(a, b)?;
        Ok(first * UNIT + second)
    }

    fn level(&self, a: usize, b: usize) -> Result<u32, Refusal> {
        require(self.fits(), Refusal::NoSuchPlace)?;
        self.first.level(a, b)
    }

    fn count(&self) -> u64 {
        self.first.count()
    }

    fn held(&self) -> usize {
        if self.fits() { self.first.held() } else { 0 }
    }

    fn top(&self) -> u64 {
        if self.fits() {
            self.first.top() * UNIT + self.second.top()
        } else {
            0
        }
    }
}
