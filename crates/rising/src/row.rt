//! A row of rising readings, weighed by where each span of it is held.
ghost use Rattle.std.specs.Prelude.{◌≡◌, ℕ, ◌+◌, ◌<◌, ◌≤◌, List, [], length, slice_index};
ghost use Rattle.weighing.specs.Calls.{Span};
ghost use Rattle.rising.specs.Held;
ghost use Rattle.rising.specs.Held.{row_readings, row_count, row_meaning};
ghost use Rattle.rising.specs.Rows.{rising_verdict, Small, Rising, Pushes, Pops, Empties, WeighsBy};
ghost use Rattle.rising.specs.Spans.{Local};
ghost use Rattle.rising.specs.HeldLemmas.{held_few, held_small, held_rising};
ghost use Rattle.std.proofs.Common.{arith, rules};

use crate::readings::{RISING_TOP, Readings};
use counter::Counter;
use refusal::Refusal;
use std::marker::PhantomData;
use weighing::span::check_span;
use weighing::weighing::Weighing;

/// Where a span of rising readings is held, and what it weighs there.
pub trait Hold {
    // the place of the reading that is the level of the span from the first place to the second
    ghost place: { ℕ → ℕ → ℕ };

    // what that span of a list of readings weighs
    ghost weight: { List ℕ → ℕ → ℕ → ℕ };

    /// The place of the reading at which the span `a..b` is held.
    fn place(a: usize, b: usize) -> usize
        requires { Span 512 a b }
        ensures value { result ≡ place a b };

    /// The weight of the span `a..b`.
    fn weight(row: &Readings, a: usize, b: usize) -> u64
        requires { Span (length (Held.readings row.now)) a b }
        ensures value { result ≡ weight (Held.readings row.now) a b };

    ghost inside: { (a b : ℕ) → a < b → place a b < b };

    ghost local: { Local weight };

    ghost bounded: { (x : List ℕ) → Small x → length x ≤ 512 → (a b : ℕ) → a < b → b ≤ length x → weight x a b ≤ 33553920 };

    ghost quadrangle: { (x : List ℕ) → Rising x → (a b c d : ℕ) → a < b → b < c → c < d → d ≤ length x → weight x a c + weight x b d ≤ weight x a d + weight x b c };
}

/// Readings that never fall, weighed by where `H` holds their spans.
#[derive(Drop)]
pub struct Row<H> {
    readings: Readings,
    weighs: Counter,
    hold: PhantomData<H>,
}

impl<H: Hold> Row<H> {
    /// No readings yet.
    pub fn new() -> Row<H>
        ensures value { (row_readings result ≡ []) × (row_count result ≡ 0) }
    {
        Row {
            readings: Readings::new(),
            weighs: Counter::new(),
            hold: PhantomData,
        }
    }
}

// What a call leaves as it was stands at each call: an invariant knows no state before.
impl<H: Hold> Weighing for Row<H> {
    ghost held = { (row_meaning H.place H.weight).held };

    ghost weight = { (row_meaning H.place H.weight).weight };

    ghost level = { (row_meaning H.place H.weight).level };

    ghost verdict = { (row_meaning H.place H.weight).verdict };

    ghost top = { (row_meaning H.place H.weight).top };

    ghost count = { (row_meaning H.place H.weight).count };

    ghost few = { λ w. held_few w.readings };

    ghost bounded = { λ w a b h l. H.bounded (Held.readings w.readings) (held_small w.readings) (held_few w.readings) a b h l };

    ghost levelled = { λ w a b h l. let inside = H.inside a b h in held_small w.readings _ (omega arith) };

    ghost topped = { Prim.search rules };

    ghost counted = { Prim.search rules };

    ghost known = { Prim.search rules };

    ghost full = { Prim.search rules };

    ghost quadrangle = { λ w. H.quadrangle (Held.readings w.readings) (held_rising w.readings) };

    fn verdict(&self, reading: u32) -> Option<Refusal> {
        self.readings.verdict(reading)
    }

    fn take(&mut self, reading: u32) -> Result<usize, Refusal>
        ensures answer { Pushes row_readings self.old self.new reading result }
        ensures same { self.new.weighs ≡ self.old.weighs }
    {
        self.readings.take(reading)
    }

    fn drop_last(&mut self) -> Result<usize, Refusal>
        ensures answer { Pops row_readings self.old self.new result }
        ensures same { self.new.weighs ≡ self.old.weighs }
    {
        self.readings.drop_last()
    }

    fn wipe(&mut self) -> usize
        ensures answer { Empties row_readings self.old self.new result }
        ensures same { self.new.weighs ≡ self.old.weighs }
    {
        self.readings.wipe();
        0
    }

    fn weigh(&mut self, a: usize, b: usize) -> Result<u64, Refusal>
        ensures answer { WeighsBy row_readings self.old self.new H.weight row_count a b result }
        ensures same { self.new.readings ≡ self.old.readings }
    {
        check_span(a, b, self.readings.held())?;
        self.weighs.raise();
        Ok(H::weight(&self.readings, a, b))
    }

    fn level(&self, a: usize, b: usize) -> Result<u32, Refusal> {
        check_span(a, b, self.readings.held())?;
        Ok(self.readings.at(H::place(a, b)))
    }

    fn count(&self) -> u64 {
        self.weighs.told()
    }

    fn held(&self) -> usize {
        self.readings.held()
    }

    fn top(&self) -> u64 {
        RISING_TOP
    }
}
