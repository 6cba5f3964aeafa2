//! The numbers of rows that are kept, in the order in which they were offered.

ghost use Rattle.std.specs.Prelude.{◌≡◌, ◌≤◌, ◌++◌, ◌∷◌, ℕ, List, [], take, if◌then◌else◌, IfOk};

use hv_value::Mem;
use std::alloc::Global;
use std::marker::Model;

/// How many numbers a block has room for.
const BLOCK: usize = 256;

/// Numbers of rows. Contracts see their list. A number that is offered is written to a block in any case and stays
/// there where it is kept, so that the processor has no branch to guess.
#[derive(Drop)]
pub(crate) struct KeptRows {
    full: Vec<u32>,
    block: [u32; BLOCK],
    held: usize,
}

impl Model for KeptRows {
    ghost use Rattle.std.specs.Prelude.{◌≤◌, ◌++◌, ℕ, List, take};

    ghost Value = { List ℕ };

    ghost view = { λ k. k.full.items ++ take k.held k.block };

    ghost invariant = { λ k. k.held ≤ 256 };
}

impl KeptRows {
    /// No numbers.
    pub(crate) fn new(alloc: Global) -> KeptRows
        ensures { result ≡ [] }
    {
        KeptRows {
            full: Vec::new(alloc),
            block: [0; BLOCK],
            held: 0,
        }
    }

    /// Adds a number where it is to be kept.
    pub(crate) fn offer(&mut self, row: u32, keep: bool) -> Mem<()>
        ensures { IfOk result (λ _. self.new ≡ self.old ++ (if keep then row ∷ [] else [])) }
    {
        if self.held == BLOCK {
            self.full.extend_from_slice(&self.block)?;
            self.held = 0;
        }
        self.block[self.held] = row;
        self.held += usize::from(keep);
        Ok(())
    }

    /// The list of the numbers.
    pub(crate) fn into_rows(self) -> Mem<Vec<u32>>
        ensures { IfOk result (λ rows. rows.items ≡ self) }
    {
        let mut rows = self.full;
        rows.extend_from_slice(&self.block[..self.held])?;
        Ok(rows)
    }
}
