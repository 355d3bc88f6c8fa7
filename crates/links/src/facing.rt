// Cells as they are, or seen in a mirror: only these functions look at `flip`. It is a bool because near, far and seen of
// the specs are over one: an enum would be translated in every clause. Two trees and the item between them stay three
// parameters: as a struct they would be taken apart in every clause.
ghost use Rattle.std.specs.Prelude.{◌≡◌, ◌+◌, ◌<◌, [], ◌∷◌};
ghost use Rattle.balance.specs.Trees.{node};
ghost use Rattle.cells.specs.Cells.{seen, near, far};
ghost use Rattle.cells.specs.References.{Owned};
ghost use Rattle.cells.specs.Lent.{SameLoan};
ghost use Rattle.cells.specs.Moves.{Fits, Makes};

use cells::{Cell, Item, Store};
use kinds::Kind;

// The child seen on the left.
pub fn near_of<E: Copy, S: Copy>(flip: bool, c: Cell<E, S>) -> u32
    ensures { result ≡ near flip c }
{
    if flip { c.right } else { c.left }
}

// The child seen on the right.
pub fn far_of<E: Copy, S: Copy>(flip: bool, c: Cell<E, S>) -> u32
    ensures { result ≡ far flip c }
{
    if flip { c.left } else { c.right }
}

// A new cell, seen with the tree of `left` on the left. A function that orders the roots of any call by `flip` would state
// that call's contract once more, so each such call has its own.
pub fn make_facing<K: Kind>(
    store: &mut Store<'_, K>,
    flip: bool,
    left: u32,
    item: Item<K::Element, K::Summary>,
    right: u32,
) -> u32
    requires owned { Owned (K.meaning store.old.kind.now) store.old.cells.now store.old.pool (left ∷ right ∷ []) }
    requires fits { Fits (K.meaning store.old.kind.now) (seen flip store.old.cells.now left) item (seen flip store.old.cells.now right) }
    requires some { 0 < store.old.pool.free }
    ensures same { SameLoan store.old store.new }
    ensures yields { Makes (K.meaning store.old.kind.now) flip store.old.cells.now store.old.pool (left ∷ right ∷ []) store.new.cells.now store.new.pool result
        (node (seen flip store.old.cells.now left) item.element (seen flip store.old.cells.now right)) 1 }
    ensures taken { store.new.pool.free + 1 ≡ store.old.pool.free }
{
    if flip {
        return store.make(right, item, left);
    }
    store.make(left, item, right)
}
