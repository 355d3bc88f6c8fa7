// The rounds: each does one thing at a place without a pattern, always with the same track, and gives back what it made.
// Each loop stands by itself: a closure over the lent cells would have to say in a contract of its own what the loop's
// invariant says.
ghost use Rattle.std.specs.Prelude.{◌≡◌, ◌+◌, ◌^◌, ◌<◌, ◌≤◌, [], ◌∷◌, length};
ghost use Rattle.faults.specs.Limits.{limit};
ghost use Rattle.kinds.specs.Places.{extent_of, put_at, without};
ghost use Rattle.flat.specs.Refusals.{element_limit};
ghost use Rattle.balance.specs.Levels.{most};
ghost use Rattle.cells.specs.Cells.{cell_count, Live, Sound};
ghost use Rattle.cells.specs.Lent.{SameLoan};
ghost use Rattle.splits.specs.Owning.{Owns};
ghost use Rattle.edits.specs.Edits.{edit_takes, list};
ghost use Rattle.paces.specs.Rests.{Rests};
ghost use Rattle.paces.specs.Sums.{put_counts, cut_counts, offsets, lengths};

use crate::places::Places;
use cells::Store;
use edits::{cut, extent_at, put};
use kinds::Kind;
use walks::View;

// Puts the list of `clip` in at a place, and tells how many elements there are then.
fn put_once<K: Kind>(store: &mut Store<'_, K>, root: u32, place: u32, clip: u32) -> u32
    requires owns { Owns (K.meaning store.old.kind.now) store.old.cells.now store.old.pool [] (root ∷ clip ∷ []) (2 ^ 15) }
    requires few { length (list store.old.cells.now root) + length (list store.old.cells.now clip) ≤ element_limit }
    requires short { extent_of (K.meaning store.old.kind.now) (list store.old.cells.now root) + extent_of (K.meaning store.old.kind.now) (list store.old.cells.now clip) ≤ limit }
    requires some { edit_takes ≤ store.old.pool.free }
    ensures same { SameLoan store.old store.new }
    ensures rests { Rests (K.meaning store.old.kind.now) store.old.cells.now store.old.pool store.new.cells.now store.new.pool }
    ensures count { result ≡ length (put_at (K.meaning store.old.kind.now) place (list store.old.cells.now clip) (list store.old.cells.now root)) }
{
    let r = put(store, root, place, clip);
    let n = store.count_at(r);
    store.release(r);
    n
}

// Cuts a range out, and tells how many elements are left.
fn cut_once<K: Kind>(store: &mut Store<'_, K>, root: u32, from: u32, len: u32) -> u32
    requires owns { Owns (K.meaning store.old.kind.now) store.old.cells.now store.old.pool [] (root ∷ []) (2 ^ 15) }
    requires few { length (list store.old.cells.now root) ≤ element_limit }
    requires some { edit_takes ≤ store.old.pool.free }
    ensures same { SameLoan store.old store.new }
    ensures rests { Rests (K.meaning store.old.kind.now) store.old.cells.now store.old.pool store.new.cells.now store.new.pool }
    ensures count { result ≡ length (without (K.meaning store.old.kind.now) from len (list store.old.cells.now root)) }
{
    let r = cut(store, root, from, len);
    let n = store.count_at(r.left);
    store.release(r.left);
    store.release(r.taken);
    n
}

// Puts the list of `clip` in at places, and adds up how many elements there are then.
pub(crate) fn puts<K: Kind>(store: &mut Store<'_, K>, root: u32, clip: u32, rounds: u32) -> u64
    requires owns { Owns (K.meaning store.old.kind.now) store.old.cells.now store.old.pool [] (root ∷ clip ∷ []) (2 ^ 15) }
    requires few { length (list store.old.cells.now root) + length (list store.old.cells.now clip) ≤ element_limit }
    requires short { extent_of (K.meaning store.old.kind.now) (list store.old.cells.now root) + extent_of (K.meaning store.old.kind.now) (list store.old.cells.now clip) ≤ limit }
    requires some { edit_takes ≤ store.old.pool.free }
    ensures same { SameLoan store.old store.new }
    ensures rests { Rests (K.meaning store.old.kind.now) store.old.cells.now store.old.pool store.new.cells.now store.new.pool }
    ensures sum { result ≡ put_counts (K.meaning store.old.kind.now) (list store.old.cells.now root) (list store.old.cells.now clip) rounds }
{
    let end = extent_at(store, root);
    let mut places = Places::new();
    let mut sum = 0u64;
    for _ in 0..rounds {
        let n = put_once(store, root, places.next(end), clip);
        sum = sum.wrapping_add(n as u64);
    }
    sum
}

// Cuts ranges out, and adds up how many elements are left.
pub(crate) fn cuts<K: Kind>(store: &mut Store<'_, K>, root: u32, rounds: u32) -> u64
    requires owns { Owns (K.meaning store.old.kind.now) store.old.cells.now store.old.pool [] (root ∷ []) (2 ^ 15) }
    requires few { length (list store.old.cells.now root) ≤ element_limit }
    requires some { edit_takes ≤ store.old.pool.free }
    ensures same { SameLoan store.old store.new }
    ensures rests { Rests (K.meaning store.old.kind.now) store.old.cells.now store.old.pool store.new.cells.now store.new.pool }
    ensures sum { result ≡ cut_counts (K.meaning store.old.kind.now) (list store.old.cells.now root) rounds }
{
    let end = extent_at(store, root);
    let mut places = Places::new();
    let mut sum = 0u64;
    for _ in 0..rounds {
        let from = places.next(end);
        let len = places.next(end - from);
        let n = cut_once(store, root, from, len);
        sum = sum.wrapping_add(n as u64);
    }
    sum
}

// Reads at a place, and adds up the offsets.
pub(crate) fn reads<K: Kind>(store: &Store<'_, K>, root: u32, rounds: u32) -> u64
    requires sound { Sound (K.meaning store.now.kind.now) store.now.cells.now }
    requires live { Live store.now.cells.now root }
    requires few { cell_count store.now.cells.now root ≤ most }
    ensures { 1 ≤ extent_of (K.meaning store.now.kind.now) (list store.now.cells.now root) → result ≡ offsets (K.meaning store.now.kind.now) (list store.now.cells.now root) rounds }
{
    let extent = extent_at(store, root);
    if extent == 0 {
        return 0;
    }
    let end = extent - 1;
    let view = View::of(store, root);
    let mut places = Places::new();
    let mut sum = 0u64;
    for _ in 0..rounds {
        let found = view.read(places.next(end));
        sum = sum.wrapping_add(found.offset as u64);
    }
    sum
}

// Asks for the overview from a place to one behind it, and adds up their lengths.
pub(crate) fn overviews<K: Kind>(store: &Store<'_, K>, root: u32, rounds: u32) -> u64
    requires sound { Sound (K.meaning store.now.kind.now) store.now.cells.now }
    requires live { Live store.now.cells.now root }
    ensures { 1 ≤ extent_of (K.meaning store.now.kind.now) (list store.now.cells.now root) → result ≡ lengths (K.meaning store.now.kind.now) (list store.now.cells.now root) rounds }
{
    let extent = extent_at(store, root);
    if extent == 0 {
        return 0;
    }
    let end = extent - 1;
    let view = View::of(store, root);
    let mut places = Places::new();
    let mut sum = 0u64;
    for _ in 0..rounds {
        let from = places.next(end);
        let len = places.next(end - from) + 1;
        let s = view.overview(from, len);
        sum = sum.wrapping_add(store.kind.width(s) as u64);
    }
    sum
}
