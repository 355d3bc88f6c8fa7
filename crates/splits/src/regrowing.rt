// What lies on one side of a place, from the holding cell up: each cell that the walk passed on that side is linked to
// what has grown so far. Both sides are written once; only `link_facing` looks at `flip`.
ghost use Rattle.std.specs.Prelude.{◌≡◌, ◌^◌, ◌≤◌, [], ◌∷◌};
ghost use Rattle.balance.specs.Links.{link};
ghost use Rattle.balance.specs.Costs.{link_cost};
ghost use Rattle.cells.specs.Cells.{seen};
ghost use Rattle.cells.specs.Lent.{SameLoan};
ghost use Rattle.cells.specs.References.{Holds};
ghost use Rattle.cells.specs.Cells.{Whole};
ghost use Rattle.links.specs.Sitting.{Linkable};
ghost use Rattle.splits.specs.Splitting.{Grows};
ghost use Rattle.splits.specs.Regrowing.{Joinable, Growable, Grown, Regrown};

use cells::{Item, Store};
use kinds::Kind;
use links::{far_of, link};

// A link, seen with the tree of `left` on the left.
// `make_facing` of links is its like: one function for both would take the call as a closure, and state its contract anew.
pub fn link_facing<K: Kind>(
    store: &mut Store<'_, K>,
    flip: bool,
    left: u32,
    item: Item<K::Element, K::Summary>,
    right: u32,
) -> u32
    requires holds { Holds (K.meaning store.old.kind.now) store.old.cells.now store.old.pool (left ∷ right ∷ []) (2 ^ 24) }
    requires linkable { Linkable (K.meaning store.old.kind.now) (seen flip store.old.cells.now left) item.element (seen flip store.old.cells.now right) }
    requires whole { Whole (K.meaning store.old.kind.now) item }
    requires some { link_cost (seen flip store.old.cells.now left) (seen flip store.old.cells.now right) ≤ store.old.pool.free }
    ensures same { SameLoan store.old store.new }
    ensures grows { Grows (K.meaning store.old.kind.now) flip store.old.cells.now store.old.pool (left ∷ right ∷ []) store.new.cells.now store.new.pool result
        (link (seen flip store.old.cells.now left) item.element (seen flip store.old.cells.now right))
        (link_cost (seen flip store.old.cells.now left) (seen flip store.old.cells.now right)) }
{
    if flip {
        return link(store, right, item, left);
    }
    link(store, left, item, right)
}

// The tree of `low`, linked with the element of the cell `i` and the tree of its far child.
pub fn regrow_one<K: Kind>(store: &mut Store<'_, K>, flip: bool, low: u32, i: u32) -> u32
    requires { Joinable (K.meaning store.old.kind.now) flip store.old.cells.now store.old.pool low i }
    ensures same { SameLoan store.old store.new }
    ensures grown { Grown (K.meaning store.old.kind.now) flip store.old.cells.now store.old.pool low i store.new.cells.now store.new.pool result }
{
    let c = store.cell_at(i);
    let far = far_of(flip, c);
    store.retain(far);
    link_facing(store, flip, low, Item::from(c), far)
}

// Up from `low` through the cells that a walk passed, the last first.
// `climb` of links is its like: one loop for both would take the step as a closure, and its invariant as a parameter.
pub fn regrow<K: Kind>(store: &mut Store<'_, K>, flip: bool, low: u32, passed: &[u32]) -> u32
    requires { Growable (K.meaning store.old.kind.now) flip store.old.cells.now store.old.pool low passed.now }
    ensures same { SameLoan store.old store.new }
    ensures regrown { Regrown (K.meaning store.old.kind.now) flip store.old.cells.now store.old.pool (low ∷ []) (seen flip store.old.cells.now low) 0 passed.now store.new.cells.now store.new.pool result }
{
    let mut x = low;
    for &i in passed.iter().rev() {
        x = regrow_one(store, flip, x, i);
    }
    x
}
