// Reading a cell, and what a link tells: of none the count is 0 and the summary empty. Over a slice, since who only looks
// has no store, and over a store.
ghost use Rattle.std.specs.Prelude.{◌≡◌, ◌<◌, length, Some};
ghost use Rattle.std.specs.List.{slice_get};
ghost use Rattle.cells.specs.Cells.{cell_count, sum_at};

use crate::cell::Cell;
use crate::store::Store;
use kinds::Kind;

pub fn cell_at<E: Copy, S: Copy>(cells: &[Cell<E, S>], i: u32) -> Cell<E, S>
    requires { i < length cells.now }
    ensures { slice_get cells.now i ≡ Some result }
{
    cells[i as usize]
}

// How many elements lie under a link.
pub fn count_at<E: Copy, S: Copy>(cells: &[Cell<E, S>], i: u32) -> u32
    ensures { result ≡ cell_count cells.now i }
{
    cells.get(i as usize).map_or(0, |c| c.count)
}

// Their summary, in order.
pub fn summary_at<K: Kind>(kind: &K, cells: &[Cell<K::Element, K::Summary>], i: u32) -> K::Summary
    ensures { result ≡ sum_at (K.meaning kind.now) cells.now i }
{
    cells
        .get(i as usize)
        .map_or_else(|| kind.empty(), |c| c.summary)
}

impl<K: Kind> Store<'_, K> {
    // The cell that `i` names, if any. A method, since the borrow checker covers no `get` on the cells behind a `&mut`.
    pub(crate) fn get(&self, i: u32) -> Option<Cell<K::Element, K::Summary>>
        ensures { slice_get self.now.cells.now i ≡ result }
    {
        self.cells.get(i as usize).copied()
    }

    pub fn cell_at(&self, i: u32) -> Cell<K::Element, K::Summary>
        requires { i < length self.now.cells.now }
        ensures { slice_get self.now.cells.now i ≡ Some result }
    {
        cell_at(self.cells, i)
    }

    pub fn count_at(&self, i: u32) -> u32
        ensures { result ≡ cell_count self.now.cells.now i }
    {
        count_at(self.cells, i)
    }

    pub fn summary_at(&self, i: u32) -> K::Summary
        ensures { result ≡ sum_at (K.meaning self.now.kind.now) self.now.cells.now i }
    {
        summary_at(self.kind, self.cells, i)
    }
}
