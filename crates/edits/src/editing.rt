// Each edit is a division or two and as many links. 2,048 free cells are always enough.
ghost use Rattle.std.specs.Prelude.{◌≡◌, ◌+◌, ◌^◌, ◌<◌, ◌≤◌, [], ◌∷◌, length};
ghost use Rattle.faults.specs.Limits.{limit};
ghost use Rattle.kinds.specs.Kinds.{Lawful};
ghost use Rattle.kinds.specs.Places.{extent_of, put_at, taken};
ghost use Rattle.balance.specs.Trees.{count};
ghost use Rattle.balance.specs.Edits.{tail};
ghost use Rattle.balance.specs.Levels.{most};
ghost use Rattle.cells.specs.Moves.{Moves};
ghost use Rattle.cells.specs.Lent.{SameLoan};
ghost use Rattle.splits.specs.Owning.{Owns};
ghost use Rattle.splits.specs.Splitting.{behind, loose_roots};
ghost use Rattle.flat.specs.Refusals.{element_limit};
ghost use Rattle.edits.specs.Edits.{edit_takes, copy_takes, insert_takes, list, Makes, Cuts};

use crate::removal::Removal;
use cells::{Item, NONE, Store};
use kinds::Kind;
use splits::{Loose, join, merge, part, part_rest};

// A list of one element.
pub fn single<K: Kind>(store: &mut Store<'_, K>, element: K::Element) -> u32
    requires owns { Owns (K.meaning store.old.kind.now) store.old.cells.now store.old.pool [] [] (2 ^ 16) }
    requires lawful { Lawful (K.meaning store.old.kind.now) element }
    requires some { 1 ≤ store.old.pool.free }
    ensures same { SameLoan store.old store.new }
    ensures makes { Makes (K.meaning store.old.kind.now) store.old.cells.now store.old.pool store.new.cells.now store.new.pool result (element ∷ []) 1 }
{
    store.make(NONE, Item::of(store.kind, element), NONE)
}

// The list of `root` with that of `new` put in at a place.
pub fn put<K: Kind>(store: &mut Store<'_, K>, root: u32, place: u32, new: u32) -> u32
    requires owns { Owns (K.meaning store.old.kind.now) store.old.cells.now store.old.pool [] (root ∷ new ∷ []) (2 ^ 16) }
    requires few { length (list store.old.cells.now root) + length (list store.old.cells.now new) ≤ element_limit }
    requires short { extent_of (K.meaning store.old.kind.now) (list store.old.cells.now root) + extent_of (K.meaning store.old.kind.now) (list store.old.cells.now new) ≤ limit }
    requires some { edit_takes ≤ store.old.pool.free }
    ensures same { SameLoan store.old store.new }
    ensures makes { Makes (K.meaning store.old.kind.now) store.old.cells.now store.old.pool store.new.cells.now store.new.pool result
        (put_at (K.meaning store.old.kind.now) place (list store.old.cells.now new) (list store.old.cells.now root)) edit_takes }
{
    let split = part(store, root, place);
    let front = merge(store, split.before, new);
    join(store, front, split.loose)
}

// The list of `root` with an element put in at a place.
pub fn insert<K: Kind>(store: &mut Store<'_, K>, root: u32, place: u32, element: K::Element) -> u32
    requires owns { Owns (K.meaning store.old.kind.now) store.old.cells.now store.old.pool [] (root ∷ []) (2 ^ 15) }
    requires lawful { Lawful (K.meaning store.old.kind.now) element }
    requires few { length (list store.old.cells.now root) < element_limit }
    requires short { extent_of (K.meaning store.old.kind.now) (list store.old.cells.now root) + length ((K.meaning store.old.kind.now).atoms element) ≤ limit }
    requires some { insert_takes ≤ store.old.pool.free }
    ensures same { SameLoan store.old store.new }
    ensures makes { Makes (K.meaning store.old.kind.now) store.old.cells.now store.old.pool store.new.cells.now store.new.pool result
        (put_at (K.meaning store.old.kind.now) place (element ∷ []) (list store.old.cells.now root)) insert_takes }
{
    let one = single(store, element);
    let r = put(store, root, place, one);
    store.release(one);
    r
}

// Gives back the root behind a place, if there is one.
fn let_go<K: Kind>(store: &mut Store<'_, K>, rest: Option<Loose<K::Element, K::Summary>>)
    requires owns { Owns (K.meaning store.old.kind.now) store.old.cells.now store.old.pool (loose_roots rest) [] (2 ^ 20) }
    requires few { count (tail (behind store.old.cells.now rest)) ≤ most }
    ensures same { SameLoan store.old store.new }
    ensures moves { Moves (K.meaning store.old.kind.now) store.old.cells.now store.old.pool (loose_roots rest) store.new.cells.now store.new.pool [] 0 }
{
    if let Some(loose) = rest {
        store.release(loose.root);
    }
}

// The range of `len` atoms from a place on, as a list of its own.
pub fn copy<K: Kind>(store: &mut Store<'_, K>, root: u32, from: u32, len: u32) -> u32
    requires owns { Owns (K.meaning store.old.kind.now) store.old.cells.now store.old.pool [] (root ∷ []) (2 ^ 16) }
    requires few { length (list store.old.cells.now root) ≤ element_limit }
    requires some { copy_takes ≤ store.old.pool.free }
    ensures same { SameLoan store.old store.new }
    ensures makes { Makes (K.meaning store.old.kind.now) store.old.cells.now store.old.pool store.new.cells.now store.new.pool result
        (taken (K.meaning store.old.kind.now) from len (list store.old.cells.now root)) copy_takes }
{
    let first = part(store, root, from);
    store.release(first.before);
    let second = part_rest(store, first.loose, len);
    let_go(store, second.loose);
    second.before
}

// The list without that range, and the range.
pub fn cut<K: Kind>(store: &mut Store<'_, K>, root: u32, from: u32, len: u32) -> Removal
    requires owns { Owns (K.meaning store.old.kind.now) store.old.cells.now store.old.pool [] (root ∷ []) (2 ^ 16) }
    requires few { length (list store.old.cells.now root) ≤ element_limit }
    requires some { edit_takes ≤ store.old.pool.free }
    ensures same { SameLoan store.old store.new }
    ensures cuts { Cuts (K.meaning store.old.kind.now) store.old.cells.now store.old.pool store.new.cells.now store.new.pool result (list store.old.cells.now root) from len edit_takes }
{
    let first = part(store, root, from);
    let second = part_rest(store, first.loose, len);
    let left = join(store, first.before, second.loose);
    Removal {
        left,
        taken: second.before,
    }
}
