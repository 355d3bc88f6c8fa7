// Linking: all else that is made of trees is made by links.
ghost use Rattle.std.specs.Prelude.{◌≡◌, ◌^◌, ◌≤◌, false, [], ◌∷◌, ◌++◌};
ghost use Rattle.balance.specs.Trees.{elements};
ghost use Rattle.balance.specs.Links.{link};
ghost use Rattle.balance.specs.Costs.{link_cost};
ghost use Rattle.cells.specs.Cells.{tree};
ghost use Rattle.cells.specs.References.{Holds};
ghost use Rattle.cells.specs.Lent.{SameLoan};
ghost use Rattle.cells.specs.Moves.{Makes};
ghost use Rattle.links.specs.Opened.{Whole};
ghost use Rattle.links.specs.Sitting.{Linkable};

use crate::hanging::hang;
use balance::outweighs;
use cells::{Item, Store};
use kinds::Kind;

// The elements of the left root, then the item, then the elements of the right root, in one balanced tree.
pub fn link<K: Kind>(
    store: &mut Store<'_, K>,
    left: u32,
    item: Item<K::Element, K::Summary>,
    right: u32,
) -> u32
    requires holds { Holds (K.meaning store.old.kind.now) store.old.cells.now store.old.pool (left ∷ right ∷ []) (2 ^ 24) }
    requires linkable { Linkable (K.meaning store.old.kind.now) (tree store.old.cells.now left) item.element (tree store.old.cells.now right) }
    requires whole { Whole (K.meaning store.old.kind.now) item }
    requires some { link_cost (tree store.old.cells.now left) (tree store.old.cells.now right) ≤ store.old.pool.free }
    ensures same { SameLoan store.old store.new }
    ensures yields { Makes (K.meaning store.old.kind.now) false store.old.cells.now store.old.pool (left ∷ right ∷ []) store.new.cells.now store.new.pool result
        (link (tree store.old.cells.now left) item.element (tree store.old.cells.now right))
        (link_cost (tree store.old.cells.now left) (tree store.old.cells.now right)) }
    ensures order { elements (tree store.new.cells.now result) ≡ elements (tree store.old.cells.now left) ++ (item.element ∷ elements (tree store.old.cells.now right)) }
{
    let before = store.count_at(left) + 1;
    let behind = store.count_at(right) + 1;
    if outweighs(behind, before) {
        return hang(store, false, left, item, right);
    }
    if outweighs(before, behind) {
        return hang(store, true, right, item, left);
    }
    store.make(left, item, right)
}
