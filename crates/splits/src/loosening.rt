// Elements on their way between cells: divided, or with their own summary again.
ghost use Rattle.std.specs.Prelude.{◌≡◌, ◌^◌, ◌<◌, ◌≤◌, false, [], ◌∷◌, length};
ghost use Rattle.faults.specs.Limits.{limit};
ghost use Rattle.kinds.specs.Kinds.{Lawful};
ghost use Rattle.balance.specs.Trees.{count};
ghost use Rattle.balance.specs.Ways.{span};
ghost use Rattle.balance.specs.Edits.{up_to, on_from};
ghost use Rattle.balance.specs.Levels.{most};
ghost use Rattle.balance.specs.Costs.{up_to_cost};
ghost use Rattle.cells.specs.Cells.{shape, tree};
ghost use Rattle.cells.specs.Lent.{SameLoan};
ghost use Rattle.cells.specs.Cells.{Whole};
ghost use Rattle.splits.specs.Owning.{Owns};
ghost use Rattle.splits.specs.Splitting.{Tied, Grows};

use crate::split::Loose;
use cells::{Item, NONE, Store};
use kinds::Kind;
use links::link;

// The tree of `left`, and behind it what the element has before its atom `d`.
pub fn up_to<K: Kind>(store: &mut Store<'_, K>, left: u32, element: K::Element, d: u32) -> u32
    requires owns { Owns (K.meaning store.old.kind.now) store.old.cells.now store.old.pool (left ∷ []) [] (2 ^ 22) }
    requires lawful { Lawful (K.meaning store.old.kind.now) element }
    requires inside { d < length ((K.meaning store.old.kind.now).atoms element) }
    requires few { count (up_to (shape (K.meaning store.old.kind.now)) (tree store.old.cells.now left) element d) ≤ most }
    requires short { span (shape (K.meaning store.old.kind.now)) (up_to (shape (K.meaning store.old.kind.now)) (tree store.old.cells.now left) element d) ≤ limit }
    requires some { up_to_cost (tree store.old.cells.now left) d ≤ store.old.pool.free }
    ensures same { SameLoan store.old store.new }
    ensures grows { Grows (K.meaning store.old.kind.now) false store.old.cells.now store.old.pool (left ∷ []) store.new.cells.now store.new.pool result
        (up_to (shape (K.meaning store.old.kind.now)) (tree store.old.cells.now left) element d) (up_to_cost (tree store.old.cells.now left) d) }
{
    if d == 0 {
        return left;
    }
    let first = Item::of(store.kind, store.kind.part(element, 0, d));
    link(store, left, first, NONE)
}

// What a loose element has from its atom `d` on, before the same tree. Its summary is not asked for.
pub fn from_on<K: Kind>(
    kind: &K,
    loose: Loose<K::Element, K::Summary>,
    d: u32,
) -> Loose<K::Element, K::Summary>
    requires tied { Tied (K.meaning kind.now) loose }
    requires inside { d < length ((K.meaning kind.now).atoms loose.element) }
    ensures tied { Tied (K.meaning kind.now) result }
    ensures element { result.element ≡ on_from (shape (K.meaning kind.now)) loose.element d }
    ensures root { result.root ≡ loose.root }
{
    if d == 0 {
        return loose;
    }
    let rest = kind.extent(loose.element) - d;
    Loose {
        element: kind.part(loose.element, d, rest),
        own: None,
        ..loose
    }
}

// The loose element with its own summary, to be linked.
pub fn item_of<K: Kind>(
    kind: &K,
    loose: Loose<K::Element, K::Summary>,
) -> Item<K::Element, K::Summary>
    requires { Tied (K.meaning kind.now) loose }
    ensures whole { Whole (K.meaning kind.now) result }
    ensures element { result.element ≡ loose.element }
{
    match loose.own {
        Some(own) => Item {
            element: loose.element,
            own,
        },
        None => Item::of(kind, loose.element),
    }
}
