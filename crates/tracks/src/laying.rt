// Laying pieces at the end of a track.
ghost use Rattle.std.specs.Prelude.{◌≡◌, ◌^◌, ◌≤◌, [], ◌∷◌, length, Some, None, MatchResult};
ghost use Rattle.cells.specs.Lent.{SameLoan};
ghost use Rattle.splits.specs.Owning.{Owns};
ghost use Rattle.flat.specs.Refusals.{element_limit};
ghost use Rattle.edits.specs.Edits.{list};
ghost use Rattle.tracks.specs.Laying.{no_room_fault, not_laid, Lays, Refuses, LaysAll};

use crate::piece::{Laid, Piece};
use cells::{NONE, Store};
use edits::{extent_at, insert};
use faults::{LIMIT, SessionFault};
use flat::{MOST_ELEMENTS, enough_cells};
use kinds::Kind;

// Whether anything stands against a list of such an extent and so many elements, with so many cells free before it is
// made.
pub(crate) fn room(extent: u32, elements: u32, free: u32) -> Result<(), SessionFault>
    ensures { MatchResult result
        (λ _. no_room_fault extent elements free ≡ None)
        (λ f. no_room_fault extent elements free ≡ Some f) }
{
    if extent > LIMIT {
        return Err(SessionFault::ExtentLimit);
    }
    if elements > MOST_ELEMENTS {
        return Err(SessionFault::ElementLimit);
    }
    enough_cells(free as usize)
}

// Puts the element of a piece at the end of the list of `root`, which is given back; the new root is the caller's.
// Where that is refused, nothing changes.
pub fn lay<K: Kind>(store: &mut Store<'_, K>, root: u32, piece: Piece) -> Result<u32, SessionFault>
    requires owns { Owns (K.meaning store.old.kind.now) store.old.cells.now store.old.pool (root ∷ []) [] (2 ^ 14) }
    requires few { length (list store.old.cells.now root) ≤ element_limit }
    ensures same { SameLoan store.old store.new }
    ensures lays { MatchResult result
        (Lays (K.meaning store.old.kind.now) store.old.cells.now store.old.pool root piece store.new.cells.now store.new.pool)
        (Refuses (K.meaning store.old.kind.now) (not_laid (K.meaning store.old.kind.now) (list store.old.cells.now root) store.old.pool.free piece)
        store.old.cells.now store.old.pool store.new.cells.now store.new.pool) }
{
    let element = store.kind.make(piece.first, piece.second)?;
    let end = extent_at(store, root);
    let extent = end + store.kind.extent(element);
    let elements = store.count_at(root) + 1;
    room(extent, elements, store.pool.free)?;
    let r = insert(store, root, end, element);
    store.release(root);
    Ok(r)
}

// Lays pieces from an empty track on, all of them or up to the first that is refused.
pub fn lay_all<K: Kind>(store: &mut Store<'_, K>, pieces: &[Piece]) -> Laid
    requires { Owns (K.meaning store.old.kind.now) store.old.cells.now store.old.pool [] [] (2 ^ 14) }
    ensures same { SameLoan store.old store.new }
    ensures lays { LaysAll (K.meaning store.old.kind.now) store.old.cells.now store.old.pool pieces.now store.new.cells.now store.new.pool result }
{
    let mut root = NONE;
    for (laid, piece) in pieces.iter().enumerate() {
        match lay(store, root, *piece) {
            Ok(r) => root = r,
            Err(fault) => {
                return Laid {
                    root,
                    laid,
                    done: Err(fault),
                };
            }
        }
    }
    Laid {
        root,
        laid: pieces.len(),
        done: Ok(()),
    }
}
