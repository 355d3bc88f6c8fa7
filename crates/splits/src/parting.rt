// Taking a tree apart at a place. Between two elements nothing is divided; an element around the place becomes its two
// parts, of which the second is left loose: most often it is linked elsewhere, or divided once more.
ghost use Rattle.std.specs.Prelude.{◌≡◌, ◌+◌, ◌^◌, ◌<◌, ◌≤◌, [], ◌∷◌};
ghost use Rattle.faults.specs.Limits.{limit};
ghost use Rattle.kinds.specs.Places.{after};
ghost use Rattle.balance.specs.Trees.{count, elements};
ghost use Rattle.balance.specs.Lists.{extents};
ghost use Rattle.balance.specs.Ways.{span};
ghost use Rattle.balance.specs.Edits.{more, listed, tail, parted, parted_rest};
ghost use Rattle.balance.specs.Levels.{most};
ghost use Rattle.balance.specs.Costs.{parted_cost, parted_rest_cost};
ghost use Rattle.cells.specs.Cells.{shape, tree};
ghost use Rattle.cells.specs.Lent.{SameLoan};
ghost use Rattle.splits.specs.Owning.{Owns};
ghost use Rattle.splits.specs.Splitting.{behind, loose_roots, AllTied, Splits, Leaves, Divided, Partable};

use crate::loosening::{from_on, item_of, up_to};
use crate::siding::{before_of, behind_of};
use crate::split::{Loose, Split};
use cells::{NONE, Path, Store};
use kinds::Kind;
use links::link;
use walks::{Found, View};

// The tree of a lent root, taken apart at a place; at its end or beyond, all of it lies before.
pub fn part<K: Kind>(
    store: &mut Store<'_, K>,
    root: u32,
    place: u32,
) -> Split<K::Element, K::Summary>
    requires owns { Owns (K.meaning store.old.kind.now) store.old.cells.now store.old.pool [] (root ∷ []) (2 ^ 20) }
    requires few { count (tree store.old.cells.now root) ≤ most }
    requires some { parted_cost (shape (K.meaning store.old.kind.now)) (tree store.old.cells.now root) place ≤ store.old.pool.free }
    ensures same { SameLoan store.old store.new }
    ensures splits { Splits (K.meaning store.old.kind.now) store.old.cells.now store.old.pool [] store.new.cells.now store.new.pool result
        (parted (shape (K.meaning store.old.kind.now)) (tree store.old.cells.now root) place)
        (parted_cost (shape (K.meaning store.old.kind.now)) (tree store.old.cells.now root) place) }
    ensures lists { Divided (K.meaning store.old.kind.now) store.new.cells.now result (elements (tree store.old.cells.now root)) place }
{
    let view = View::of(store, root);
    if place >= view.width() {
        store.retain(root);
        return Split {
            before: root,
            loose: None,
        };
    }
    let (mut lefts, mut rights) = (Path::new(), Path::new());
    let Found { cell, offset } = view.descend(place, &mut lefts, &mut rights);
    let c = store.cell_at(cell);
    let loose = behind_of(store, c, offset, lefts.as_slice());
    Split {
        before: before_of(store, c, offset, rights.as_slice()),
        loose: Some(loose),
    }
}

// What lies behind a place of the tree of a lent root, if anything does. What lies before the place is not made, so no
// summary is asked for.
// The walk begins as in `part`: a function for that would be lent both paths, and its contract be longer than those lines.
pub fn part_behind<K: Kind>(
    store: &mut Store<'_, K>,
    root: u32,
    place: u32,
) -> Option<Loose<K::Element, K::Summary>>
    requires owns { Owns (K.meaning store.old.kind.now) store.old.cells.now store.old.pool [] (root ∷ []) (2 ^ 20) }
    requires few { count (tree store.old.cells.now root) ≤ most }
    requires some { parted_cost (shape (K.meaning store.old.kind.now)) (tree store.old.cells.now root) place ≤ store.old.pool.free }
    ensures same { SameLoan store.old store.new }
    ensures leaves { Leaves (K.meaning store.old.kind.now) store.old.cells.now store.old.pool store.new.cells.now store.new.pool result
        (parted (shape (K.meaning store.old.kind.now)) (tree store.old.cells.now root) place).rest
        (parted_cost (shape (K.meaning store.old.kind.now)) (tree store.old.cells.now root) place) }
    ensures lists { listed (behind store.new.cells.now result) ≡ after (K.meaning store.old.kind.now) place (elements (tree store.old.cells.now root)) }
{
    let view = View::of(store, root);
    if place >= view.width() {
        return None;
    }
    let (mut lefts, mut rights) = (Path::new(), Path::new());
    let Found { cell, offset } = view.descend(place, &mut lefts, &mut rights);
    let c = store.cell_at(cell);
    Some(behind_of(store, c, offset, lefts.as_slice()))
}

// A loose element and the tree behind it, taken apart at a place. Both are given away.
pub fn part_loose<K: Kind>(
    store: &mut Store<'_, K>,
    loose: Loose<K::Element, K::Summary>,
    place: u32,
) -> Split<K::Element, K::Summary>
    requires { Partable (K.meaning store.old.kind.now) store.old.cells.now store.old.pool loose place }
    ensures same { SameLoan store.old store.new }
    ensures splits { Splits (K.meaning store.old.kind.now) store.old.cells.now store.old.pool (loose.root ∷ []) store.new.cells.now store.new.pool result
        (parted_rest (shape (K.meaning store.old.kind.now)) (more loose.element (tree store.old.cells.now loose.root)) place)
        (parted_rest_cost (shape (K.meaning store.old.kind.now)) (more loose.element (tree store.old.cells.now loose.root)) place) }
{
    let own = store.kind.extent(loose.element);
    if place < own {
        let before = up_to(store, NONE, loose.element, place);
        return Split {
            before,
            loose: Some(from_on(store.kind, loose, place)),
        };
    }
    let deeper = part(store, loose.root, place - own);
    store.release(loose.root);
    let before = link(store, NONE, item_of(store.kind, loose), deeper.before);
    Split { before, ..deeper }
}

// What lies behind a place, taken apart once more.
pub fn part_rest<K: Kind>(
    store: &mut Store<'_, K>,
    rest: Option<Loose<K::Element, K::Summary>>,
    place: u32,
) -> Split<K::Element, K::Summary>
    requires owns { Owns (K.meaning store.old.kind.now) store.old.cells.now store.old.pool (loose_roots rest) [] (2 ^ 19) }
    requires tied { AllTied (K.meaning store.old.kind.now) rest }
    requires few { count (tail (behind store.old.cells.now rest)) < most }
    requires short { extents (shape (K.meaning store.old.kind.now)) (listed (behind store.old.cells.now rest)) ≤ limit }
    requires some { parted_rest_cost (shape (K.meaning store.old.kind.now)) (behind store.old.cells.now rest) place ≤ store.old.pool.free }
    ensures same { SameLoan store.old store.new }
    ensures splits { Splits (K.meaning store.old.kind.now) store.old.cells.now store.old.pool (loose_roots rest) store.new.cells.now store.new.pool result
        (parted_rest (shape (K.meaning store.old.kind.now)) (behind store.old.cells.now rest) place)
        (parted_rest_cost (shape (K.meaning store.old.kind.now)) (behind store.old.cells.now rest) place) }
    ensures lists { Divided (K.meaning store.old.kind.now) store.new.cells.now result (listed (behind store.old.cells.now rest)) place }
{
    match rest {
        Some(loose) => part_loose(store, loose, place),
        None => Split {
            before: NONE,
            loose: None,
        },
    }
}
