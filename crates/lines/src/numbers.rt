//! The numbers of a line's fields.
ghost use Rattle.std.specs.Prelude.{◌≡◌, ℕ, ◌<◌, ◌≤◌, List, [], ◌∷◌, ◌++◌, length, MatchResult};
ghost use Rattle.chip.specs.declared.refusal.Refusal.TheVariants.{Unreadable};

use chip::refusal::Refusal;

/// At most nine: no line takes more. Copied with their line, as an `ArrayVec` can not be.
#[derive(Clone, Copy)]
pub struct Numbers {
    values: [u16; 9],
    count: usize,
    pub ghost few: { count ≤ 9 },
}

impl Numbers {
    ghost use Rattle.lines.specs.Numbers.{items};

    pub fn none() -> Numbers
        ensures { items result ≡ [] }
    {
        Numbers {
            values: [0; 9],
            count: 0,
        }
    }

    /// One number more, or a refusal where there are nine.
    pub fn push(&mut self, n: u16) -> Result<(), Refusal>
        ensures cases { MatchResult result (λ _. items self.new ≡ items self.old ++ n ∷ []) (λ e. (e ≡ Unreadable) × (self.new ≡ self.old) × (length (items self.old) ≡ 9)) }
    {
        if self.count == self.values.len() {
            return Err(Refusal::Unreadable);
        }
        self.values[self.count] = n;
        self.count += 1;
        Ok(())
    }

    pub fn as_slice(&self) -> &[u16]
        ensures { result.now ≡ items self.now }
    {
        &self.values[..self.count]
    }
}
