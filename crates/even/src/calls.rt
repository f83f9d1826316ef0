//! What can be done with an even weighing.
ghost use Rattle.std.specs.Prelude.{◌≡◌, ℕ, ◌+◌, ◌-◌, ◌<◌, ◌≤◌, true, Ok, Err};
ghost use Rattle.refusal.specs.Rules.{Broken, NoOther};
ghost use Rattle.counter.specs.Counters.{raised};
ghost use Rattle.weighing.specs.Calls.{Span};
ghost use Rattle.even.specs.Evens.{nominal_fits, even_weight};
ghost use Rattle.even.specs.Meaning.{even_meaning, KeepsAllButReadings};
ghost use Rattle.even.specs.Squares.{even_bounded, even_quadrangle};
ghost use Rattle.std.proofs.Common.{arith, rules};
ghost use Rattle.std.proofs.lemmas.Bool.{cond-true};

use crate::{EVEN_TOP, Even};
use refusal::Refusal;
use weighing::span::check_span;
use weighing::verdict::{heed, verdict_on};
use weighing::weighing::Weighing;

// What a call leaves as it was stands at each call: an invariant knows no state before.
impl Weighing for Even {
    ghost held = { even_meaning.held };

    ghost weight = { even_meaning.weight };

    ghost level = { even_meaning.level };

    ghost verdict = { even_meaning.verdict };

    ghost top = { even_meaning.top };

    ghost count = { even_meaning.count };

    ghost few = { Prim.search rules };

    ghost bounded = { λ w a b h1 h2.
        let h : b ≤ w.n = h2 in
        let fits : nominal_fits w.nominal ≡ true = w.fits (omega arith) in
        let low : 1 ≤ w.nominal = Prim.grind arith in
        let high : w.nominal ≤ 512 = Prim.grind arith in
        rw (cond-true {A = ℕ} _ 261121 0 fits) (even_bounded w.nominal a b h1 (omega arith) low high) };

    ghost levelled = { Prim.search rules };

    ghost topped = { Prim.search rules };

    ghost counted = { Prim.search rules };

    ghost known = { Prim.search rules };

    ghost full = { Prim.search rules };

    ghost quadrangle = { λ w a b c d h1 h2 h3 h4. even_quadrangle w.nominal a b c d h1 h2 h3 };

    fn verdict(&self, reading: u32) -> Option<Refusal> {
        if self.fits() {
            // nothing falls below 0
            verdict_on(self.n, reading, 0)
        } else {
            Some(Refusal::Misfit)
        }
    }

    fn take(&mut self, reading: u32) -> Result<usize, Refusal>
        ensures answer { elim result [
          | Ok n ↦ (even_meaning.verdict self.old reading ≡ 0) × (n ≡ self.old.n + 1) × (self.new.n ≡ n)
          | Err why ↦ Broken (even_meaning.verdict self.old reading ≡ 0) (even_meaning.verdict self.old reading) NoOther why × (self.new ≡ self.old)
        ] }
        ensures same { KeepsAllButReadings self.old self.new }
    {
        heed(self.verdict(reading))?;
        self.n += 1;
        Ok(self.n)
    }

    fn drop_last(&mut self) -> Result<usize, Refusal>
        ensures answer { elim result [
          | Ok n ↦ (0 < self.old.n) × (n ≡ self.old.n - 1) × (self.new.n ≡ n)
          | Err why ↦ Broken (0 < self.old.n) 5 NoOther why × (self.new ≡ self.old)
        ] }
        ensures same { KeepsAllButReadings self.old self.new }
    {
        // Two lines; a shared count would need a contract as long as theirs.
        self.n = self.n.checked_sub(1).ok_or(Refusal::NothingHeld)?;
        Ok(self.n)
    }

    fn wipe(&mut self) -> usize
        ensures answer { (result ≡ 0) × (self.new.n ≡ 0) }
        ensures same { KeepsAllButReadings self.old self.new }
    {
        self.n = 0;
        0
    }

    fn weigh(&mut self, a: usize, b: usize) -> Result<u64, Refusal>
        ensures answer { elim result [
          | Ok v ↦ Span self.old.n a b × (v ≡ even_weight self.old.nominal a b) × (self.new.weighs.told ≡ raised self.old.weighs.told)
          | Err why ↦ Broken (Span self.old.n a b) 8 NoOther why × (self.new ≡ self.old)
        ] }
        ensures same { (self.new.nominal ≡ self.old.nominal) × (self.new.n ≡ self.old.n) }
    {
        check_span(a, b, self.n)?;
        self.weighs.raise();
        let off = (b - a).abs_diff(self.nominal) as u64;
        Ok(off * off)
    }

    fn level(&self, a: usize, b: usize) -> Result<u32, Refusal> {
        check_span(a, b, self.n)?;
        Ok(0)
    }

    fn count(&self) -> u64 {
        self.weighs.told()
    }

    fn held(&self) -> usize {
        self.n
    }

    fn top(&self) -> u64 {
        if self.fits() { EVEN_TOP } else { 0 }
    }
}
