// A new cell over two trees.
ghost use Rattle.std.specs.Prelude.{◌≡◌, ◌+◌, ◌<◌, false, [], ◌∷◌};
ghost use Rattle.balance.specs.Trees.{node};
ghost use Rattle.cells.specs.Cells.{tree};
ghost use Rattle.cells.specs.References.{Owned};
ghost use Rattle.cells.specs.Lent.{SameLoan};
ghost use Rattle.cells.specs.Moves.{Fits, Makes};

use crate::cell::Cell;
use crate::item::Item;
use crate::pool::Pool;
use crate::store::Store;
use kinds::Kind;

impl<K: Kind> Store<'_, K> {
    // Takes a free cell and puts the item between the trees of two owned roots; the cell owns them from then on, and its
    // number is the caller's.
    pub fn make(&mut self, left: u32, item: Item<K::Element, K::Summary>, right: u32) -> u32
        requires owned { Owned (K.meaning self.old.kind.now) self.old.cells.now self.old.pool (left ∷ right ∷ []) }
        requires fits { Fits (K.meaning self.old.kind.now) (tree self.old.cells.now left) item (tree self.old.cells.now right) }
        requires some { 0 < self.old.pool.free }
        ensures same { SameLoan self.old self.new }
        ensures yields { Makes (K.meaning self.old.kind.now) false self.old.cells.now self.old.pool (left ∷ right ∷ []) self.new.cells.now self.new.pool result
            (node (tree self.old.cells.now left) item.element (tree self.old.cells.now right)) 1 }
        ensures taken { self.new.pool.free + 1 ≡ self.old.pool.free }
    {
        let i = self.pool.head;
        let count = self.count_at(left) + 1 + self.count_at(right);
        let behind = self.kind.join(item.own, self.summary_at(right));
        let summary = self.kind.join(self.summary_at(left), behind);
        let next = self.cell_at(i).left;
        self.put(
            i,
            Cell {
                element: item.element,
                own: item.own,
                left,
                right,
                count,
                summary,
                refs: 1,
            },
        );
        self.pool = Pool {
            head: next,
            free: self.pool.free - 1,
        };
        i
    }
}
