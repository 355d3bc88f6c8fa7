// Down the near side of a tree, to where a lighter one can stand. Nothing is written but the path.
ghost use Rattle.std.specs.Prelude.{◌≡◌, ◌≤◌, [], length};
ghost use Rattle.balance.specs.Links.{spine};
ghost use Rattle.balance.specs.Levels.{most, deepest};
ghost use Rattle.cells.specs.Cells.{cell_count, seen, Live, Sound};
ghost use Rattle.links.specs.Climbing.{Sunk};

use crate::facing::near_of;
use balance::outweighs;
use cells::{Path, Store};
use kinds::Kind;

// Down from the tree of `right` while it outweighs that of `left`. The path has then just the cells that are passed; the
// answer is the first that can stand beside.
pub fn sink<K: Kind>(
    store: &Store<'_, K>,
    flip: bool,
    left: u32,
    right: u32,
    path: &mut Path,
) -> u32
    requires sound { Sound (K.meaning store.now.kind.now) store.now.cells.now }
    requires live { Live store.now.cells.now left × Live store.now.cells.now right }
    requires few { (cell_count store.now.cells.now left ≤ most) × (cell_count store.now.cells.now right ≤ most) }
    requires deep { length (spine (seen flip store.now.cells.now left) (seen flip store.now.cells.now right)) ≤ deepest }
    ensures { Sunk (K.meaning store.now.kind.now) flip store.now.cells.now (seen flip store.now.cells.now left) right path.new.items result }
{
    path.clear();
    let light = store.count_at(left) + 1;
    let mut x = right;
    while outweighs(store.count_at(x) + 1, light) {
        path.push(x);
        x = near_of(flip, store.cell_at(x));
    }
    x
}
