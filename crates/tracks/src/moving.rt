// Taking a range out of a track, and putting it in.
ghost use Rattle.std.specs.Prelude.{◌^◌, ◌≤◌, [], ◌∷◌, length, MatchResult};
ghost use Rattle.cells.specs.Lent.{SameLoan};
ghost use Rattle.splits.specs.Owning.{Owns};
ghost use Rattle.flat.specs.Refusals.{element_limit};
ghost use Rattle.edits.specs.Edits.{list, edit_takes};
ghost use Rattle.tracks.specs.Moving.{not_taken, not_put, TakesOut, PutsIn, Declines};

use crate::laying::room;
use cells::Store;
use edits::{Removal, cut, extent_at, put};
use faults::SessionFault;
use flat::CELLS_WANTED;
use kinds::Kind;

// Takes a range out of the list of `root`, which stays. How many elements would be left is known only once they are, so
// what was made is given back where they are too many.
pub fn take_out<K: Kind>(
    store: &mut Store<'_, K>,
    root: u32,
    from: u32,
    len: u32,
) -> Result<Removal, SessionFault>
    requires owns { Owns (K.meaning store.old.kind.now) store.old.cells.now store.old.pool [] (root ∷ []) (2 ^ 14) }
    requires few { length (list store.old.cells.now root) ≤ element_limit }
    requires some { edit_takes ≤ store.old.pool.free }
    ensures same { SameLoan store.old store.new }
    ensures takes { MatchResult result
        (TakesOut (K.meaning store.old.kind.now) store.old.cells.now store.old.pool root from len store.new.cells.now store.new.pool)
        (Declines (K.meaning store.old.kind.now) (not_taken (K.meaning store.old.kind.now) (list store.old.cells.now root) store.old.pool.free from len)
        store.old.cells.now store.old.pool store.new.cells.now store.new.pool) }
{
    if len == 0 {
        return Err(SessionFault::EmptyRange);
    }
    if from as u64 + len as u64 > extent_at(store, root) as u64 {
        return Err(SessionFault::RangePastEnd);
    }
    let free = store.pool.free;
    let r = cut(store, root, from, len);
    // The extent has not grown.
    if let Err(fault) = room(0, store.count_at(r.left), free) {
        store.release(r.left);
        store.release(r.taken);
        return Err(fault);
    }
    Ok(r)
}

// Puts the list of `clip` into that of `root` at a place; both stay.
pub fn put_in<K: Kind>(
    store: &mut Store<'_, K>,
    root: u32,
    place: u32,
    clip: u32,
) -> Result<u32, SessionFault>
    requires owns { Owns (K.meaning store.old.kind.now) store.old.cells.now store.old.pool [] (root ∷ clip ∷ []) (2 ^ 14) }
    requires some { edit_takes ≤ store.old.pool.free }
    ensures same { SameLoan store.old store.new }
    ensures puts { MatchResult result
        (PutsIn (K.meaning store.old.kind.now) store.old.cells.now store.old.pool root place clip store.new.cells.now store.new.pool)
        (Declines (K.meaning store.old.kind.now) (not_put (K.meaning store.old.kind.now) (list store.old.cells.now root) (list store.old.cells.now clip) store.old.pool.free place)
        store.old.cells.now store.old.pool store.new.cells.now store.new.pool) }
{
    let end = extent_at(store, root);
    if place > end {
        return Err(SessionFault::BeyondEnd);
    }
    let more = store.count_at(clip);
    if more == 0 {
        return Err(SessionFault::ClipboardEmpty);
    }
    let extent = end + extent_at(store, clip);
    let elements = store.count_at(root).saturating_add(more);
    // Free cells are told last, once the number of elements is known.
    room(extent, elements, CELLS_WANTED as u32)?;
    let free = store.pool.free;
    let r = put(store, root, place, clip);
    if let Err(fault) = room(0, store.count_at(r), free) {
        store.release(r);
        return Err(fault);
    }
    Ok(r)
}
