// Hanging a light tree into a heavy one.
ghost use Rattle.std.specs.Prelude.{◌+◌, ◌*◌, ◌^◌, ◌<◌, ◌≤◌, [], ◌∷◌, length};
ghost use Rattle.balance.specs.Trees.{weight, Δ};
ghost use Rattle.balance.specs.Links.{hung, spine};
ghost use Rattle.cells.specs.Cells.{seen};
ghost use Rattle.cells.specs.References.{Holds};
ghost use Rattle.cells.specs.Lent.{SameLoan};
ghost use Rattle.cells.specs.Moves.{Makes};
ghost use Rattle.links.specs.Opened.{Whole};
ghost use Rattle.links.specs.Sitting.{Linkable};

use crate::climbing::climb;
use crate::facing::make_facing;
use crate::sinking::sink;
use cells::{Item, Path, Store};
use kinds::Kind;

// The light tree of `left` goes down the near side of that of `right`; the item and it are put in there, and what was
// passed is made anew. The heavy tree is given back last, so that its cells can be read on the way up.
pub fn hang<K: Kind>(
    store: &mut Store<'_, K>,
    flip: bool,
    left: u32,
    item: Item<K::Element, K::Summary>,
    right: u32,
) -> u32
    requires holds { Holds (K.meaning store.old.kind.now) store.old.cells.now store.old.pool (left ∷ right ∷ []) (2 ^ 24) }
    requires linkable { Linkable (K.meaning store.old.kind.now) (seen flip store.old.cells.now left) item.element (seen flip store.old.cells.now right) }
    requires heavy { Δ * weight (seen flip store.old.cells.now left) < weight (seen flip store.old.cells.now right) }
    requires whole { Whole (K.meaning store.old.kind.now) item }
    requires some { 3 * length (spine (seen flip store.old.cells.now left) (seen flip store.old.cells.now right)) + 1 ≤ store.old.pool.free }
    ensures same { SameLoan store.old store.new }
    ensures yields { Makes (K.meaning store.old.kind.now) flip store.old.cells.now store.old.pool (left ∷ right ∷ []) store.new.cells.now store.new.pool result
        (hung (seen flip store.old.cells.now left) item.element (seen flip store.old.cells.now right))
        (3 * length (spine (seen flip store.old.cells.now left) (seen flip store.old.cells.now right)) + 1) }
{
    let mut path = Path::new();
    let foot = sink(store, flip, left, right, &mut path);
    store.retain(foot);
    let low = make_facing(store, flip, left, item, foot);
    let r = climb(store, flip, low, right, &path);
    store.release(right);
    r
}
