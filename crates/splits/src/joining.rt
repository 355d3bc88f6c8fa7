// Putting trees together.
ghost use Rattle.std.specs.Prelude.{◌≡◌, ◌+◌, ◌^◌, ◌<◌, ◌≤◌, false, [], ◌∷◌, ◌++◌};
ghost use Rattle.faults.specs.Limits.{limit};
ghost use Rattle.balance.specs.Trees.{count, elements};
ghost use Rattle.balance.specs.Lists.{extents};
ghost use Rattle.balance.specs.Ways.{span};
ghost use Rattle.balance.specs.Edits.{listed, tail, joined, merge};
ghost use Rattle.balance.specs.Levels.{most};
ghost use Rattle.balance.specs.Costs.{joined_cost, merge_cost};
ghost use Rattle.cells.specs.Cells.{shape, tree};
ghost use Rattle.cells.specs.Lent.{SameLoan};
ghost use Rattle.splits.specs.Owning.{Owns};
ghost use Rattle.splits.specs.Splitting.{behind, loose_roots, AllTied, Grows};

use crate::loosening::item_of;
use crate::parting::part;
use crate::split::Loose;
use cells::Store;
use kinds::Kind;
use links::link;

// The elements of `left`, then those that lie behind a place. Both are given away.
pub fn join<K: Kind>(
    store: &mut Store<'_, K>,
    left: u32,
    rest: Option<Loose<K::Element, K::Summary>>,
) -> u32
    requires owns { Owns (K.meaning store.old.kind.now) store.old.cells.now store.old.pool (left ∷ loose_roots rest) [] (2 ^ 20) }
    requires tied { AllTied (K.meaning store.old.kind.now) rest }
    requires few { count (tree store.old.cells.now left) + count (tail (behind store.old.cells.now rest)) < most }
    requires short { span (shape (K.meaning store.old.kind.now)) (tree store.old.cells.now left) + extents (shape (K.meaning store.old.kind.now)) (listed (behind store.old.cells.now rest)) ≤ limit }
    requires some { joined_cost (tree store.old.cells.now left) (behind store.old.cells.now rest) ≤ store.old.pool.free }
    ensures same { SameLoan store.old store.new }
    ensures grows { Grows (K.meaning store.old.kind.now) false store.old.cells.now store.old.pool (left ∷ loose_roots rest) store.new.cells.now store.new.pool result
        (joined (tree store.old.cells.now left) (behind store.old.cells.now rest)) (joined_cost (tree store.old.cells.now left) (behind store.old.cells.now rest)) }
    ensures lists { elements (tree store.new.cells.now result) ≡ elements (tree store.old.cells.now left) ++ listed (behind store.old.cells.now rest) }
{
    match rest {
        Some(loose) => link(store, left, item_of(store.kind, loose), loose.root),
        None => left,
    }
}

// The elements of `left`, which is given away, then those of `right`, which is lent.
pub fn merge<K: Kind>(store: &mut Store<'_, K>, left: u32, right: u32) -> u32
    requires owns { Owns (K.meaning store.old.kind.now) store.old.cells.now store.old.pool (left ∷ []) (right ∷ []) (2 ^ 18) }
    requires few { count (tree store.old.cells.now left) + count (tree store.old.cells.now right) < most }
    requires short { span (shape (K.meaning store.old.kind.now)) (tree store.old.cells.now left) + span (shape (K.meaning store.old.kind.now)) (tree store.old.cells.now right) ≤ limit }
    requires some { merge_cost (shape (K.meaning store.old.kind.now)) (tree store.old.cells.now left) (tree store.old.cells.now right) ≤ store.old.pool.free }
    ensures same { SameLoan store.old store.new }
    ensures grows { Grows (K.meaning store.old.kind.now) false store.old.cells.now store.old.pool (left ∷ []) store.new.cells.now store.new.pool result
        (merge (shape (K.meaning store.old.kind.now)) (tree store.old.cells.now left) (tree store.old.cells.now right))
        (merge_cost (shape (K.meaning store.old.kind.now)) (tree store.old.cells.now left) (tree store.old.cells.now right)) }
    ensures lists { elements (tree store.new.cells.now result) ≡ elements (tree store.old.cells.now left) ++ elements (tree store.old.cells.now right) }
{
    let split = part(store, right, 0);
    store.release(split.before);
    join(store, left, split.loose)
}
