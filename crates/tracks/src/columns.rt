// A track seen in columns: each column's summary comes from the summaries that cells keep, and only where an edge of a
// column lies inside an element is a part of it asked of the kind.
ghost use Rattle.std.specs.Prelude.{◌≡◌, ◌^◌, ◌≤◌, [], ◌∷◌, map, IfOk};
ghost use Rattle.std.specs.List.{range_with_len};
ghost use Rattle.kinds.specs.Places.{extent_of, atoms_of};
ghost use Rattle.splits.specs.Owning.{Owns};
ghost use Rattle.profile.specs.Columns.{column, between};
ghost use Rattle.edits.specs.Edits.{list};

use cells::{Cell, Pool, Store};
use kinds::Kind;
use profile::in_columns;
use std::alloc::{AllocError, Global};
use walks::View;

// The summary of the atoms of a track from one place to another: of a tree, by an overview, as profile has it of an element,
// by a part. A slice and a pool, and no store, for whoever only reads cells.
pub fn stretch<K: Kind>(
    kind: &K,
    cells: &[Cell<K::Element, K::Summary>],
    pool: &Pool,
    root: u32,
    from: u32,
    to: u32,
) -> K::Summary
    requires owns { Owns (K.meaning kind.now) cells.now pool.now [] (root ∷ []) (2 ^ 16) }
    requires order { from ≤ to }
    requires inside { to ≤ extent_of (K.meaning kind.now) (list cells.now root) }
    ensures { result ≡ between (K.meaning kind.now) (atoms_of (K.meaning kind.now) (list cells.now root)) from to }
{
    if from == to {
        kind.empty()
    } else {
        View::new(kind, cells, root).overview(from, to - from)
    }
}

// The summaries of n columns of a track, as equal as there can be.
pub fn columns_of<K: Kind>(
    alloc: Global,
    kind: &K,
    cells: &[Cell<K::Element, K::Summary>],
    pool: &Pool,
    root: u32,
    n: u32,
) -> Result<Vec<K::Summary>, AllocError>
    requires { Owns (K.meaning kind.now) cells.now pool.now [] (root ∷ []) (2 ^ 16) }
    ensures { IfOk result (λ v. v.items ≡ map (column (K.meaning kind.now) (atoms_of (K.meaning kind.now) (list cells.now root)) n) (range_with_len 0 n)) }
{
    let extent = View::new(kind, cells, root).width();
    in_columns(alloc, extent, n, |from, to| {
        stretch(kind, cells, pool, root, from, to)
    })
}

// The same, of a track in a store.
pub(crate) fn columns_in<K: Kind>(
    alloc: Global,
    store: &Store<'_, K>,
    root: u32,
    n: u32,
) -> Result<Vec<K::Summary>, AllocError>
    requires { Owns (K.meaning store.now.kind.now) store.now.cells.now store.now.pool [] (root ∷ []) (2 ^ 16) }
    ensures { IfOk result (λ v. v.items ≡ map (column (K.meaning store.now.kind.now) (atoms_of (K.meaning store.now.kind.now) (list store.now.cells.now root)) n) (range_with_len 0 n)) }
{
    columns_of(alloc, store.kind, store.cells, &store.pool, root, n)
}
