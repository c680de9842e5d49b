//! Cells that hold digests, no two the same, and an index of them.

ghost use Rattle.std.specs.Prelude.{◌≡◌, ◌<◌, ◌≤◌, ◌^◌, ℕ, List, None, Some, true, length, IfOk, IfErr, OnOk, OnErr, MatchOption, replicate, slice_set, is_some};
ghost use Rattle.std.specs.List.{list_all};
ghost use Rattle.title_terms.specs.Titles.{IsDigest};
ghost use Rattle.title_store.specs.Cells.{IsAbsent, HoldsDigest, AreDistinct, IsRefusal, held_at};

use indexmap::IndexMap;
use lists::Memory;
use std::alloc::{AllocError, Global};
use std::marker::Model;

/// Cells, each of which holds a digest or nothing. Contracts see them alone; the index leads from each digest to its cell.
#[derive(Drop)]
pub(crate) struct Table {
    cells: Vec<Option<[u8; 32]>>,
    index: IndexMap<[u8; 32], u32>,
}

impl Model for Table {
    ghost use Rattle.std.specs.Prelude.{ℕ, List, Option};
    ghost use Rattle.title_store.specs.Cells.{IsTable};

    ghost Value = { List (Option (List ℕ)) };

    ghost view = { λ t. t.cells.items };

    ghost invariant = { λ t. IsTable t.index.entries t.cells.items };
}

/// Why a digest is not put into a cell: the first of these that applies.
#[derive(Clone, Copy)]
pub(crate) enum CellError {
    /// The cell is full.
    Full,
    /// This cell holds the digest.
    HeldBy(u32),
    /// There was not enough memory.
    Memory,
}

impl Table {
    /// So many empty cells.
    pub(crate) fn new(alloc: Global, count: usize) -> Result<Table, AllocError>
        ensures { IfOk result (λ table. table ≡ replicate count None) }
    {
        let cells = vec![in alloc; None; count]?;
        Ok(Table {
            cells,
            index: IndexMap::new(alloc),
        })
    }

    /// The number of cells.
    pub(crate) fn len(&self) -> usize
        ensures number { result ≡ length self.now }
        ensures distinct { AreDistinct self.now }
    {
        self.cells.len()
    }

    /// Whether every cell is full.
    pub(crate) fn is_full(&self) -> bool
        ensures { result ≡ list_all is_some self.now }
    {
        self.cells.iter().all(|cell| cell.is_some())
    }

    /// What a cell holds; `None` also where there is no such cell.
    pub(crate) fn at(&self, cell: usize) -> Option<[u8; 32]>
        ensures { result ≡ held_at self.now cell }
    {
        match self.cells.get(cell) {
            Some(held) => *held,
            None => None,
        }
    }

    /// The cell that holds the digest.
    pub(crate) fn find(&self, digest: &[u8; 32]) -> Option<u32>
        ensures { MatchOption result (IsAbsent self.now digest.now)
            (λ cell. HoldsDigest self.now cell digest.now) }
    {
        self.index.get(digest).copied()
    }

    /// Puts a digest into an empty cell, unless another cell holds it. A refusal leaves the cells as they were.
    pub(crate) fn put(&mut self, cell: u32, digest: &[u8; 32]) -> Result<(), CellError>
        requires { cell < length self.old }
        ensures added { OnOk result (self.new ≡ slice_set self.old cell (Some digest.now)) }
        ensures empty { OnOk result (held_at self.old cell ≡ None) }
        ensures absent { OnOk result (IsAbsent self.old digest.now) }
        ensures unchanged { OnErr result (self.new ≡ self.old) }
        ensures refused { IfErr result (IsRefusal self.old cell digest.now) }
    {
        let digest = *digest;
        if self.at(cell as usize).is_some() {
            return Err(CellError::Full);
        }
        if let Some(other) = self.find(&digest) {
            return Err(CellError::HeldBy(other));
        }
        self.fill(cell, digest)
    }

    /// Puts a digest that no cell holds into an empty cell.
    fn fill(&mut self, cell: u32, digest: [u8; 32]) -> Result<(), CellError>
        requires cell { cell < length self.old }
        requires empty { held_at self.old cell ≡ None }
        requires absent { IsAbsent self.old digest }
        requires digest { IsDigest digest }
        ensures added { OnOk result (self.new ≡ slice_set self.old cell (Some digest)) }
        ensures unchanged { OnErr result (self.new ≡ self.old) }
        ensures memory { IfErr result (λ e. IsRefusal self.old cell digest e) }
    {
        let Ok(_) = self.index.insert(digest, cell) else {
            return Err(CellError::Memory);
        };
        self.cells[cell as usize] = Some(digest);
        Ok(())
    }
}
