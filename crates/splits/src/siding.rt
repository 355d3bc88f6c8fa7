// The two sides of a place, each from the cell that holds it up to the root.
ghost use Rattle.std.specs.Prelude.{◌≡◌, ◌<◌, true, false, [], length};
ghost use Rattle.balance.specs.Trees.{mirror};
ghost use Rattle.balance.specs.Edits.{up_to, on_from};
ghost use Rattle.balance.specs.Costs.{up_to_cost};
ghost use Rattle.cells.specs.Cells.{shape, tree};
ghost use Rattle.cells.specs.Lent.{SameLoan};
ghost use Rattle.splits.specs.Splitting.{Tied};
ghost use Rattle.splits.specs.Regrowing.{Regrown};
ghost use Rattle.splits.specs.Sides.{Behind, Before};

use crate::loosening::{from_on, up_to};
use crate::regrowing::regrow;
use crate::split::Loose;
use cells::{Cell, Store};
use kinds::Kind;

// What a cell's element has from its atom `d` on, loose, and under its root what lies behind it: the tree of the right
// child, and all that the walk left on its right.
pub fn behind_of<K: Kind>(
    store: &mut Store<'_, K>,
    c: Cell<K::Element, K::Summary>,
    d: u32,
    lefts: &[u32],
) -> Loose<K::Element, K::Summary>
    requires { Behind (K.meaning store.old.kind.now) store.old.cells.now store.old.pool c d lefts.now }
    ensures same { SameLoan store.old store.new }
    ensures regrown { Regrown (K.meaning store.old.kind.now) false store.old.cells.now store.old.pool [] (tree store.old.cells.now c.right) 0 lefts.now store.new.cells.now store.new.pool result.root }
    ensures tied { Tied (K.meaning store.old.kind.now) result }
    ensures element { result.element ≡ on_from (shape (K.meaning store.old.kind.now)) c.element d }
{
    store.retain(c.right);
    let whole = Loose {
        element: c.element,
        own: Some(c.own),
        root: regrow(store, false, c.right, lefts),
    };
    from_on(store.kind, whole, d)
}

// What lies before the atom `d` of a cell's element: the tree of the left child, what the element has before `d`, and all
// that the walk left on its left.
pub fn before_of<K: Kind>(
    store: &mut Store<'_, K>,
    c: Cell<K::Element, K::Summary>,
    d: u32,
    rights: &[u32],
) -> u32
    requires { Before (K.meaning store.old.kind.now) store.old.cells.now store.old.pool c d rights.now }
    ensures same { SameLoan store.old store.new }
    ensures regrown { Regrown (K.meaning store.old.kind.now) true store.old.cells.now store.old.pool []
        (mirror (up_to (shape (K.meaning store.old.kind.now)) (tree store.old.cells.now c.left) c.element d)) (up_to_cost (tree store.old.cells.now c.left) d)
        rights.now store.new.cells.now store.new.pool result }
{
    store.retain(c.left);
    let low = up_to(store, c.left, c.element, d);
    regrow(store, true, low, rights)
}
