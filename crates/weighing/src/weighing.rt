//! A weighing: readings held in a row, and what each span of them costs.
ghost use Rattle.std.specs.Prelude.{◌≡◌, ℕ, ◌+◌, ◌-◌, ◌^◌, ◌<◌, ◌≤◌, Ok, Err, ◌≢◌};
ghost use Rattle.refusal.specs.Rules.{Broken, NoOther};
ghost use Rattle.weighing.specs.Calls.{Span, Takes, Drops, Wipes, Weighs, KeepsLevels, told};

use refusal::Refusal;

/// A weighing holds n readings, at most 512. A span `a..b`, with a < b <= n, covers readings a to
/// b - 1 and has a weight and a level. The verdict tells of a next reading whether it would be taken.
/// What becomes of the verdict when readings come and go is the maker's to say.
// The clauses list the members one by one, since the record of them, by which `Did` cites a call, is made from this trait.
// A span is two numbers and no Range, which is not Copy: a pair hands the span to both its sides, and the law takes new spans from the places of others.
pub trait Weighing {
    // how many readings are held: n
    ghost held: { Self → ℕ };

    // what the span from the first place to the second costs; nothing is said of other places than a < b ≤ n
    ghost weight: { Self → ℕ → ℕ → ℕ };

    // the level at which that span is held, for a < b ≤ n likewise
    ghost level: { Self → ℕ → ℕ → ℕ };

    // of a reading below 2^32: 0 where it would be taken, else the number of the refusal
    ghost verdict: { Self → ℕ → ℕ };

    // no weight passes the top, which never alters
    ghost top: { Self → ℕ };

    // how many spans were weighed, up to 2^63 - 1
    ghost count: { Self → ℕ };

    /// Whether `reading` would be taken: `None`, or why not.
    // an Option: a verdict is what is told, and only a take fails with it
    fn verdict(&self, reading: u32) -> Option<Refusal>
        ensures value { told result ≡ verdict self.now reading };

    /// Takes a reading and tells how many are held then; refused with the verdict.
    fn take(&mut self, reading: u32) -> Result<usize, Refusal>
        ensures answer { Takes held weight verdict top count self.old self.new reading result }
        ensures levels { KeepsLevels held level self.old self.new };

    /// Drops the last reading and tells how many are held then; refused where nothing is held.
    /// (`drop` itself is the language's own word.)
    fn drop_last(&mut self) -> Result<usize, Refusal>
        ensures answer { Drops held weight verdict top count self.old self.new result }
        ensures levels { KeepsLevels held level self.old self.new };

    /// Drops all readings and tells how many are held then: none.
    fn wipe(&mut self) -> usize
        ensures answer { Wipes held weight verdict top count self.old self.new result }
        ensures levels { KeepsLevels held level self.old self.new };

    /// The weight of the span `a..b`; refused where that is no span. Counts one weigh more.
    fn weigh(&mut self, a: usize, b: usize) -> Result<u64, Refusal>
        ensures answer { Weighs held weight verdict top count self.old self.new a b result }
        ensures levels { KeepsLevels held level self.old self.new };

    /// The level of the span `a..b`; refused where that is no span.
    fn level(&self, a: usize, b: usize) -> Result<u32, Refusal>
        ensures answer { elim result [
          | Ok v ↦ Span (held self.now) a b × (v ≡ level self.now a b)
          | Err why ↦ Broken (Span (held self.now) a b) 8 NoOther why
        ] };

    /// How many spans were weighed, up to 2^63 - 1.
    fn count(&self) -> u64
        ensures value { result ≡ count self.now };

    /// How many readings are held.
    fn held(&self) -> usize
        ensures value { result ≡ held self.now };

    /// What no weight passes.
    fn top(&self) -> u64
        ensures value { result ≡ top self.now };

    ghost few: { (w : Self) → held w ≤ 512 };

    ghost bounded: { (w : Self) (a b : ℕ) → a < b → b ≤ held w → weight w a b ≤ top w };

    ghost levelled: { (w : Self) (a b : ℕ) → a < b → b ≤ held w → level w a b ≤ 65535 };

    ghost topped: { (w : Self) → top w ≤ 2 ^ 59 - 1 };

    ghost counted: { (w : Self) → count w ≤ 2 ^ 63 - 1 };

    // there are fourteen refusals
    ghost known: { (w : Self) (reading : ℕ) → reading < 2 ^ 32 → verdict w reading ≤ 14 };

    ghost full: { (w : Self) (reading : ℕ) → reading < 2 ^ 32 → held w ≡ 512 → verdict w reading ≢ 0 };

    // the quadrangle inequality: two spans that overlap weigh no more than what they cover together and what they share
    ghost quadrangle: { (w : Self) (a b c d : ℕ) → a < b → b < c → c < d → d ≤ held w → weight w a c + weight w b d ≤ weight w a d + weight w b c };
}
