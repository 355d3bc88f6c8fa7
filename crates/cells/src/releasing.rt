// Giving a root back. Links that are owed stand on a stack in fixed memory; a tree's balance keeps it short.
ghost use Rattle.std.specs.Prelude.{◌≡◌, ℕ, ◌<◌, ◌≤◌, List, [], ◌∷◌};
ghost use Rattle.balance.specs.Levels.{most};
ghost use Rattle.cells.specs.Cells.{cell_count};
ghost use Rattle.cells.specs.References.{Arena, NoneLost, Owned};
ghost use Rattle.cells.specs.Lent.{SameLoan};
ghost use Rattle.cells.specs.Moves.{Releases};

use crate::cell::Cell;
use crate::path::Path;
use crate::pool::Pool;
use crate::store::Store;
use kinds::Kind;

impl<K: Kind> Store<'_, K> {
    // Gives the root back, and with it every cell that no other owned root reaches.
    pub fn release(&mut self, root: u32)
        requires owned { Owned (K.meaning self.old.kind.now) self.old.cells.now self.old.pool (root ∷ []) }
        requires few { cell_count self.old.cells.now root ≤ most }
        ensures same { SameLoan self.old self.new }
        ensures releases { (rs : List ℕ) → Arena (K.meaning self.old.kind.now) self.old.cells.now self.old.pool (root ∷ rs)
            → Releases (K.meaning self.old.kind.now) self.old.cells.now self.old.pool rs self.new.cells.now self.new.pool }
    {
        let mut owed = Path::new();
        owed.push(root);
        while let Some(link) = owed.pop() {
            if let Some(cell) = self.give_up(link) {
                owed.push(cell.left);
                owed.push(cell.right);
            }
        }
    }

    // How many cells are free: all that no owned root reaches.
    pub fn free(&self) -> u32
        ensures { (result ≡ self.now.pool.free) × ((rs : List ℕ) → Arena (K.meaning self.now.kind.now) self.now.cells.now self.now.pool rs
            → NoneLost (K.meaning self.now.kind.now) self.now.cells.now self.now.pool rs) }
    {
        free(self.kind, self.cells, &self.pool)
    }
}

// The same of a slice and a pool, for whoever only reads the cells.
pub fn free<K: Kind>(kind: &K, cells: &[Cell<K::Element, K::Summary>], pool: &Pool) -> u32
    ensures { (result ≡ pool.now.free) × ((rs : List ℕ) → Arena (K.meaning kind.now) cells.now pool.now rs
        → NoneLost (K.meaning kind.now) cells.now pool.now rs) }
{
    pool.free
}
