// Up again from a foot: each cell that was passed is made anew over what was raised so far. The passed cells belong to
// their tree, which is owned; they are read again by their numbers.
ghost use Rattle.std.specs.Prelude.{◌*◌, ◌^◌, ◌<◌, ◌≤◌, [], ◌∷◌, length};
ghost use Rattle.cells.specs.Cells.{seen};
ghost use Rattle.cells.specs.References.{Holds};
ghost use Rattle.cells.specs.Lent.{SameLoan};
ghost use Rattle.cells.specs.Moves.{Makes};
ghost use Rattle.links.specs.Sitting.{Sits};
ghost use Rattle.links.specs.Climbing.{raised, climbed, Climbs, Tabled, Above, Raises};

use crate::facing::far_of;
use crate::rebalancing::rebalance;
use cells::{Item, Path, Store};
use kinds::Kind;

// The tree under the cell `i` with the tree of `low` in the place of its near child.
pub fn raise<K: Kind>(store: &mut Store<'_, K>, flip: bool, low: u32, i: u32) -> u32
    requires above { Above (K.meaning store.old.kind.now) store.old.cells.now store.old.pool low i (2 ^ 26) }
    requires inside { i < length store.old.cells.now }
    requires sits { Sits (K.meaning store.old.kind.now) (raised (seen flip store.old.cells.now low) (seen flip store.old.cells.now i)) }
    requires some { 3 ≤ store.old.pool.free }
    ensures same { SameLoan store.old store.new }
    ensures yields { Makes (K.meaning store.old.kind.now) flip store.old.cells.now store.old.pool (low ∷ []) store.new.cells.now store.new.pool result
        (raised (seen flip store.old.cells.now low) (seen flip store.old.cells.now i)) 3 }
{
    let c = store.cell_at(i);
    let far = far_of(flip, c);
    store.retain(far);
    rebalance(store, flip, low, Item::from(c), far)
}

// Up from `low` through the cells of the path, the last first, to the top of the tree of `right`.
pub fn climb<K: Kind>(
    store: &mut Store<'_, K>,
    flip: bool,
    low: u32,
    right: u32,
    path: &Path,
) -> u32
    requires holds { Holds (K.meaning store.old.kind.now) store.old.cells.now store.old.pool (low ∷ right ∷ []) (2 ^ 25) }
    requires tabled { Tabled flip store.old.cells.now right path.now.items }
    requires climbs { Climbs (K.meaning store.old.kind.now) flip store.old.cells.now right (length path.now.items) (seen flip store.old.cells.now low) }
    requires some { 3 * length path.now.items ≤ store.old.pool.free }
    ensures same { SameLoan store.old store.new }
    ensures raises { Raises (K.meaning store.old.kind.now) flip store.old.cells.now store.old.pool low right store.new.cells.now store.new.pool result
        (climbed flip store.old.cells.now right (length path.now.items) (seen flip store.old.cells.now low)) (3 * length path.now.items) }
{
    let mut x = low;
    for &i in path.as_slice().iter().rev() {
        x = raise(store, flip, x, i);
    }
    x
}
