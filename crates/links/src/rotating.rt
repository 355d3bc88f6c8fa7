// Rotations: a cell's child, or its grandchild, comes to stand on top. Made cells only; the old ones stay for whoever
// owns them.
ghost use Rattle.std.specs.Prelude.{◌^◌, ◌<◌, ◌≤◌, [], ◌∷◌};
ghost use Rattle.balance.specs.Trees.{node, weight};
ghost use Rattle.balance.specs.Links.{rotated_twice};
ghost use Rattle.cells.specs.Cells.{seen};
ghost use Rattle.cells.specs.References.{Holds, Owned};
ghost use Rattle.cells.specs.Lent.{SameLoan};
ghost use Rattle.cells.specs.Moves.{Makes};
ghost use Rattle.links.specs.Opened.{Whole};
ghost use Rattle.links.specs.Sitting.{Sits};

use crate::facing::make_facing;
use crate::opening::open;
use crate::parts::Parts;
use cells::{Item, Store};
use kinds::Kind;

// The near child, then the parts' item, over the far child, the item and the right tree.
pub fn rotate_once<K: Kind>(
    store: &mut Store<'_, K>,
    flip: bool,
    parts: Parts<K::Element, K::Summary>,
    item: Item<K::Element, K::Summary>,
    right: u32,
) -> u32
    requires owned { Owned (K.meaning store.old.kind.now) store.old.cells.now store.old.pool (parts.near ∷ parts.far ∷ right ∷ []) }
    requires sits { Sits (K.meaning store.old.kind.now) (node (seen flip store.old.cells.now parts.near) parts.item.element (node (seen flip store.old.cells.now parts.far) item.element (seen flip store.old.cells.now right))) }
    requires whole { Whole (K.meaning store.old.kind.now) parts.item × Whole (K.meaning store.old.kind.now) item }
    requires some { 2 ≤ store.old.pool.free }
    ensures same { SameLoan store.old store.new }
    ensures yields { Makes (K.meaning store.old.kind.now) flip store.old.cells.now store.old.pool (parts.near ∷ parts.far ∷ right ∷ []) store.new.cells.now store.new.pool result
        (node (seen flip store.old.cells.now parts.near) parts.item.element (node (seen flip store.old.cells.now parts.far) item.element (seen flip store.old.cells.now right))) 2 }
{
    let low = make_facing(store, flip, parts.far, item, right);
    make_facing(store, flip, parts.near, parts.item, low)
}

// The far child's item on top: over the near child, the parts' item and the far child's near child on one side, and its
// far child, the item and the right tree on the other.
pub fn rotate_twice<K: Kind>(
    store: &mut Store<'_, K>,
    flip: bool,
    parts: Parts<K::Element, K::Summary>,
    item: Item<K::Element, K::Summary>,
    right: u32,
) -> u32
    requires holds { Holds (K.meaning store.old.kind.now) store.old.cells.now store.old.pool (parts.near ∷ parts.far ∷ right ∷ []) (2 ^ 28) }
    requires inner { 1 < weight (seen flip store.old.cells.now parts.far) }
    requires sits { Sits (K.meaning store.old.kind.now) (rotated_twice (seen flip store.old.cells.now parts.near) parts.item.element (seen flip store.old.cells.now parts.far) item.element (seen flip store.old.cells.now right)) }
    requires whole { Whole (K.meaning store.old.kind.now) parts.item × Whole (K.meaning store.old.kind.now) item }
    requires some { 3 ≤ store.old.pool.free }
    ensures same { SameLoan store.old store.new }
    ensures yields { Makes (K.meaning store.old.kind.now) flip store.old.cells.now store.old.pool (parts.near ∷ parts.far ∷ right ∷ []) store.new.cells.now store.new.pool result
        (rotated_twice (seen flip store.old.cells.now parts.near) parts.item.element (seen flip store.old.cells.now parts.far) item.element (seen flip store.old.cells.now right)) 3 }
{
    let inner = open(store, flip, parts.far);
    let first = make_facing(store, flip, parts.near, parts.item, inner.near);
    let second = make_facing(store, flip, inner.far, item, right);
    let top = make_facing(store, flip, first, inner.item, second);
    store.release(parts.far);
    top
}
