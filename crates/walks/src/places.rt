// The walk to a place, which all that reads or changes a tree begins with. The walks to a tally and to the ends of a range
// take the same three ways at a cell, but each keeps something else on its way.
ghost use Rattle.std.specs.Prelude.{◌≡◌, ◌+◌, ◌<◌, ◌≤◌, length};
ghost use Rattle.balance.specs.Ways.{span};
ghost use Rattle.balance.specs.Levels.{most};
ghost use Rattle.cells.specs.Cells.{shape, tree, cell_count};
ghost use Rattle.walks.specs.Holding.{Reads, ReadsByPath};
ghost use Rattle.walks.specs.Paths.{PathTo};
ghost use Rattle.walks.specs.Walks.{Walked};

use crate::answers::{Found, Reading};
use crate::view::View;
use cells::{Path, cell_at};
use kinds::Kind;

impl<'a, K: Kind> View<'a, K> {
    // The cell that holds the atom `place`. The cells that the walk leaves to their left child are then in `lefts`, the
    // topmost first, and those that it leaves to their right child in `rights`; what these held before is gone.
    // The paths are lent, for a walk that answered them would copy both.
    pub fn descend(&self, place: u32, lefts: &mut Path, rights: &mut Path) -> Found
        requires within { place < span (shape (K.meaning self.now.kind)) (tree self.now.cells self.now.root) }
        requires few { cell_count self.now.cells self.now.root ≤ most }
        ensures walked { Walked (K.meaning self.now.kind) self.now.cells self.now.root place lefts.new.items rights.new.items result }
        ensures path { PathTo (K.meaning self.now.kind) self.now.cells self.now.root place (length lefts.new.items + length rights.new.items + 1) result.cell }
    {
        lefts.clear();
        rights.clear();
        let (mut cell, mut at) = (self.root, place);
        loop {
            let c = cell_at(self.cells, cell);
            let before = self.at(c.left).width();
            if at < before {
                lefts.push(cell);
                cell = c.left;
            } else {
                let past = at - before;
                let own = self.kind.extent(c.element);
                if past < own {
                    return Found { cell, offset: past };
                }
                rights.push(cell);
                at = past - own;
                cell = c.right;
            }
        }
    }

    // The element that holds the atom `place`, by its two numbers.
    pub fn read(&self, place: u32) -> Reading
        requires within { place < span (shape (K.meaning self.now.kind)) (tree self.now.cells self.now.root) }
        requires few { cell_count self.now.cells self.now.root ≤ most }
        ensures reads { Reads (K.meaning self.now.kind) self.now.cells self.now.root place result }
        ensures path { ReadsByPath (K.meaning self.now.kind) self.now.cells self.now.root place result }
    {
        let (mut lefts, mut rights) = (Path::new(), Path::new());
        let found = self.descend(place, &mut lefts, &mut rights);
        let (first, second) = self.kind.tell(cell_at(self.cells, found.cell).element);
        Reading {
            first,
            second,
            offset: found.offset,
            count: (lefts.len() + rights.len() + 1) as u32,
        }
    }
}
