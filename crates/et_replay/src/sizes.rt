//! Sizes by time, added up as time goes on.
ghost use Rattle.std.specs.Prelude.{◌≡◌, ◌<◌, ◌^◌, ℕ, IfOk};
ghost use Rattle.std.specs.List.{sum_by};
ghost use Rattle.std.specs.List.Sorted.{IsNonDecreasingBy};
ghost use Rattle.et_replay.specs.Lives.{CountsTo, sum_below};

use et_base::NoMemory;

/// Sizes by time, and how far they are added up.
#[derive(Drop)]
pub struct Sizes {
    pub sizes: Vec<(u64, u64)>,
    at: usize,
    sum: u64,
}

impl Sizes {
    /// Puts the sizes in order of time, which stretches that stand so already make cheap.
    pub fn begin(sizes: Vec<(u64, u64)>) -> Result<Sizes, NoMemory>
        requires fits { sum_by (λ (p : ℕ × ℕ). p.1) sizes.items < 2 ^ 64 }
        ensures counts { IfOk result (λ s. (limit : ℕ) → CountsTo s.sizes.items s.at s.sum limit) }
        ensures sorted { IfOk result (λ s. IsNonDecreasingBy (λ (p : ℕ × ℕ). p.0) s.sizes.items) }
        ensures fits { IfOk result (λ s. sum_by (λ (p : ℕ × ℕ). p.1) s.sizes.items < 2 ^ 64) }
        ensures same { IfOk result (λ s. (limit : ℕ) →
            sum_below limit s.sizes.items ≡ sum_below limit sizes.items) }
    {
        let mut sizes = sizes;
        sizes.sort_by_key(|p| p.0)?;
        Ok(Sizes {
            sizes,
            at: 0,
            sum: 0,
        })
    }

    /// The sum of the sizes of a time below the limit. The limits of the calls never fall.
    pub fn below(&mut self, limit: u64) -> u64
        requires counts { CountsTo self.old.sizes.items self.old.at self.old.sum limit }
        requires sorted { IsNonDecreasingBy (λ (p : ℕ × ℕ). p.0) self.old.sizes.items }
        requires fits { sum_by (λ (p : ℕ × ℕ). p.1) self.old.sizes.items < 2 ^ 64 }
        ensures sum { result ≡ sum_below limit self.old.sizes.items }
        ensures counts { CountsTo self.new.sizes.items self.new.at self.new.sum limit }
        ensures same { self.new.sizes ≡ self.old.sizes }
    {
        while self.at < self.sizes.len() {
            let (time, size) = self.sizes[self.at];
            if time >= limit {
                return self.sum;
            }
            self.sum += size;
            self.at += 1;
        }
        self.sum
    }
}
