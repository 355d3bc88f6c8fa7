// A whole rearrangement in one call: pieces are laid, a range is taken out and put in elsewhere, the result is seen in
// columns, and every cell comes back.
ghost use Rattle.std.specs.Prelude.{◌≡◌, ◌^◌, ◌≤◌, [], ◌∷◌, length, Some, MatchResult};
ghost use Rattle.cells.specs.References.{Arena};
ghost use Rattle.cells.specs.Lent.{SameLoan};
ghost use Rattle.splits.specs.Owning.{Owns};
ghost use Rattle.flat.specs.Refusals.{cells_outside, fewest_cells};
ghost use Rattle.edits.specs.Edits.{list};
ghost use Rattle.tracks.specs.Moving.{Stops, NotRearranged, roots, Held, Kept, Tells, Rearranges};

use crate::columns::columns_in;
use crate::laying::lay_all;
use crate::moving::{put_in, take_out};
use crate::piece::Piece;
use crate::shift::Shift;
use crate::version::{Made, Rearranged, Version, Versions};
use cells::{Cell, Store};
use edits::extent_at;
use faults::SessionFault;
use kinds::Kind;
use profile::SurveyFault;
use std::alloc::Global;

// So many cells can be lent.
const FEWEST_CELLS: usize = 4096;

const MOST_CELLS: usize = 65535;

// A store of the cells, if they are not too few or too many.
fn open<'a, K: Kind>(
    kind: &'a K,
    cells: &'a mut [Cell<K::Element, K::Summary>],
) -> Result<Store<'a, K>, SessionFault>
    ensures { MatchResult result
        (λ s. (s.kind ≡ kind.entry) × Arena (K.meaning s.kind.now) s.cells.now s.pool [] × (s.pool.free ≡ length cells.old) × (fewest_cells ≤ length cells.old) × (length s.cells.now ≡ length cells.old))
        (λ f. cells_outside (length cells.old) ≡ Some f) }
{
    let size = cells.len();
    if !(FEWEST_CELLS..=MOST_CELLS).contains(&size) {
        return Err(SessionFault::CellsOutside);
    }
    Ok(Store::start(kind, cells))
}

// Lays the pieces, takes the range out and puts it in elsewhere. All versions are kept.
fn keep<K: Kind>(
    store: &mut Store<'_, K>,
    pieces: &[Piece],
    shift: Shift,
) -> Result<Versions, SessionFault>
    requires arena { Arena (K.meaning store.old.kind.now) store.old.cells.now store.old.pool [] }
    requires some { fewest_cells ≤ store.old.pool.free }
    ensures same { SameLoan store.old store.new }
    ensures keeps { MatchResult result
        (Kept (K.meaning store.old.kind.now) pieces.now shift store.new.cells.now store.new.pool)
        (Stops (K.meaning store.old.kind.now) (length store.old.cells.now) pieces.now shift) }
{
    let all = store.pool.free;
    let track = lay_all(store, pieces);
    track.done?;
    let before = store.pool.free;
    let parts = take_out(store, track.root, shift.from, shift.len)?;
    let between = store.pool.free;
    let moved = put_in(store, parts.left, shift.to, parts.taken)?;
    Ok(Versions {
        laid: Made {
            root: track.root,
            took: all.saturating_sub(before),
        },
        left: Made {
            root: parts.left,
            took: before.saturating_sub(between),
        },
        range: parts.taken,
        moved: Made {
            root: moved,
            took: between.saturating_sub(store.pool.free),
        },
    })
}

// What is told of a version.
fn version_of<K: Kind>(store: &Store<'_, K>, made: Made) -> Version
    requires { Owns (K.meaning store.now.kind.now) store.now.cells.now store.now.pool [] (made.root ∷ []) (2 ^ 16) }
    ensures tells { Tells (K.meaning store.now.kind.now) result (list store.now.cells.now made.root) }
    ensures took { result.took ≡ made.took }
{
    Version {
        elements: store.count_at(made.root),
        extent: extent_at(store, made.root),
        took: made.took,
    }
}

// Gives the four roots back.
fn let_go<K: Kind>(store: &mut Store<'_, K>, v: Versions)
    requires { Held (K.meaning store.old.kind.now) store.old.cells.now store.old.pool (roots v) }
    ensures same { SameLoan store.old store.new }
    ensures arena { Arena (K.meaning store.old.kind.now) store.new.cells.now store.new.pool [] }
{
    store.release(v.moved.root);
    store.release(v.left.root);
    store.release(v.range);
    store.release(v.laid.root);
}

// Lays pieces as a track, moves a range of it, and sees the result in columns.
pub fn rearrange<K: Kind>(
    alloc: Global,
    kind: &K,
    cells: &mut [Cell<K::Element, K::Summary>],
    pieces: &[Piece],
    shift: Shift,
) -> Result<Rearranged<K::Summary>, SurveyFault>
    ensures { MatchResult result
        (Rearranges (K.meaning kind.now) pieces.now shift (length cells.old))
        (NotRearranged (K.meaning kind.now) (length cells.old) pieces.now shift) }
{
    let mut store = open(kind, cells)?;
    let v = keep(&mut store, pieces, shift)?;
    let columns = columns_in(alloc, &store, v.moved.root, shift.columns)?;
    let laid = version_of(&store, v.laid);
    let cut = version_of(&store, v.left);
    let moved = version_of(&store, v.moved);
    let clip = store.count_at(v.range);
    let_go(&mut store, v);
    Ok(Rearranged {
        laid,
        cut,
        clip,
        moved,
        columns,
        free: store.free(),
    })
}
