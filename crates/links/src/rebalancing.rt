// Rebalancing: an item between two trees of which the left, as seen, may be too heavy for the right.
ghost use Rattle.std.specs.Prelude.{◌+◌, ◌^◌, ◌<◌, ◌≤◌, [], ◌∷◌};
ghost use Rattle.balance.specs.Trees.{node};
ghost use Rattle.balance.specs.Links.{rotated, rebalanced};
ghost use Rattle.cells.specs.Cells.{seen};
ghost use Rattle.cells.specs.References.{Holds};
ghost use Rattle.cells.specs.Lent.{SameLoan};
ghost use Rattle.cells.specs.Moves.{Makes};
ghost use Rattle.links.specs.Opened.{Whole};
ghost use Rattle.links.specs.Sitting.{Sits};

use crate::facing::make_facing;
use crate::opening::open;
use crate::parts::Parts;
use crate::rotating::{rotate_once, rotate_twice};
use balance::{outweighs, rotates_once};
use cells::{Item, Store};
use kinds::Kind;

// One rotation or two, of a tree that is taken apart already.
pub fn rotate<K: Kind>(
    store: &mut Store<'_, K>,
    flip: bool,
    parts: Parts<K::Element, K::Summary>,
    item: Item<K::Element, K::Summary>,
    right: u32,
) -> u32
    requires holds { Holds (K.meaning store.old.kind.now) store.old.cells.now store.old.pool (parts.near ∷ parts.far ∷ right ∷ []) (2 ^ 28) }
    requires sits { Sits (K.meaning store.old.kind.now) (rotated (node (seen flip store.old.cells.now parts.near) parts.item.element (seen flip store.old.cells.now parts.far)) item.element (seen flip store.old.cells.now right)) }
    requires whole { Whole (K.meaning store.old.kind.now) parts.item × Whole (K.meaning store.old.kind.now) item }
    requires some { 3 ≤ store.old.pool.free }
    ensures same { SameLoan store.old store.new }
    ensures yields { Makes (K.meaning store.old.kind.now) flip store.old.cells.now store.old.pool (parts.near ∷ parts.far ∷ right ∷ []) store.new.cells.now store.new.pool result
        (rotated (node (seen flip store.old.cells.now parts.near) parts.item.element (seen flip store.old.cells.now parts.far)) item.element (seen flip store.old.cells.now right)) 3 }
{
    let inner = store.count_at(parts.far) + 1;
    let outer = store.count_at(parts.near) + 1;
    if rotates_once(inner, outer) {
        return rotate_once(store, flip, parts, item, right);
    }
    rotate_twice(store, flip, parts, item, right)
}

// The tree of the left root, the item and the tree of the right root in one, balanced, by at most three new cells.
pub fn rebalance<K: Kind>(
    store: &mut Store<'_, K>,
    flip: bool,
    left: u32,
    item: Item<K::Element, K::Summary>,
    right: u32,
) -> u32
    requires holds { Holds (K.meaning store.old.kind.now) store.old.cells.now store.old.pool (left ∷ right ∷ []) (2 ^ 27) }
    requires sits { Sits (K.meaning store.old.kind.now) (rebalanced (seen flip store.old.cells.now left) item.element (seen flip store.old.cells.now right)) }
    requires whole { Whole (K.meaning store.old.kind.now) item }
    requires some { 3 ≤ store.old.pool.free }
    ensures same { SameLoan store.old store.new }
    ensures yields { Makes (K.meaning store.old.kind.now) flip store.old.cells.now store.old.pool (left ∷ right ∷ []) store.new.cells.now store.new.pool result
        (rebalanced (seen flip store.old.cells.now left) item.element (seen flip store.old.cells.now right)) 3 }
{
    let heavy = store.count_at(left) + 1;
    let light = store.count_at(right) + 1;
    if !outweighs(heavy, light) {
        return make_facing(store, flip, left, item, right);
    }
    let parts = open(store, flip, left);
    let top = rotate(store, flip, parts, item, right);
    store.release(left);
    top
}
