//! Which subprogram holds each place, in a table.
ghost use Rattle.std.specs.Prelude.{◌≡◌, [], IfOk, OnOk};
ghost use Rattle.handlers.specs.Handlers.{share_subprogram, subprogram_at};
ghost use Rattle.handlers.specs.Holding.{held, held_up_to};

use std::alloc::{AllocError, Global};
use std::marker::Model;

/// The ends of subprograms with the number of the subprogram that holds each place, so that it is found at once. Contracts see the ends.
#[derive(Drop)]
pub struct Holders {
    ends: Vec<u16>,
    numbers: Vec<usize>,
}

impl Model for Holders {
    ghost use Rattle.std.specs.Prelude.{◌≡◌, ℕ, List, slice_get};
    ghost use Rattle.handlers.specs.Handlers.{subprogram_at};

    ghost Value = { List ℕ };

    ghost view = { λ h. h.ends.items };

    ghost invariant = { λ h. (p : ℕ) → slice_get h.numbers.items p ≡ subprogram_at h.ends.items p };
}

impl Holders {
    /// The holders of the instructions of subprograms that end at `ends`, in any order. The time is in proportion to the greatest end.
    ///
    /// # Errors
    /// Where memory was refused.
    pub fn new(alloc: Global, ends: Vec<u16>) -> Result<Holders, AllocError>
        ensures { IfOk result (λ holders. holders ≡ ends.items) }
    {
        let numbers = numbers_of(alloc, &ends)?;
        Ok(Holders { ends, numbers })
    }

    /// The number of the subprogram that holds a place: of the first one that ends after it.
    pub fn number(&self, place: usize) -> Option<usize>
        ensures { result ≡ subprogram_at self.now place }
    {
        self.numbers.get(place).copied()
    }

    // Whether one subprogram holds both places.
    pub(crate) fn share(&self, first: usize, second: usize) -> bool
        ensures { result ≡ share_subprogram self.now first second }
    {
        match (self.number(first), self.number(second)) {
            (Some(m), Some(n)) => m == n,
            _ => false,
        }
    }

    /// The ends.
    pub fn ends(&self) -> &[u16]
        ensures { result.now ≡ self.now }
    {
        &self.ends
    }
}

// Gives this number to the places up to an end that have none yet.
fn hold_up_to(numbers: &mut Vec<usize>, end_: u16, number: usize) -> Result<(), AllocError>
    ensures { OnOk result (numbers.new.items ≡ held_up_to numbers.old.items end_ number) }
{
    let free = usize::from(end_).saturating_sub(numbers.len());
    for _ in 0..free {
        numbers.push(number)?;
    }
    Ok(())
}

fn numbers_of(alloc: Global, ends: &[u16]) -> Result<Vec<usize>, AllocError>
    ensures { IfOk result (λ numbers. numbers.items ≡ held 0 [] ends.now) }
{
    let mut numbers = Vec::new(alloc);
    for (number, end_) in ends.iter().enumerate() {
        hold_up_to(&mut numbers, *end_, number)?;
    }
    Ok(numbers)
}
