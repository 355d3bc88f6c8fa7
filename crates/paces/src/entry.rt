// The entry for C.
ghost use Rattle.std.specs.Prelude.{◌≡◌, ◌+◌, ◌*◌, ◌^◌, ◌≤◌, [], ◌∷◌, length};
ghost use Rattle.flat.specs.Refusals.{element_limit};
ghost use Rattle.cells.specs.Lent.{SameLoan};
ghost use Rattle.splits.specs.Owning.{Owns};
ghost use Rattle.edits.specs.Edits.{edit_takes, list};
ghost use Rattle.paces.specs.Rests.{Rests};

use crate::pace::Pace;
use crate::rounds::{cuts, overviews, puts, reads};
use crate::work::Work;
use audio::Audio;
use cells::{Cell, Store};
use edits::{copy, extent_at};
use faults::LIMIT;
use flat::{MOST_ELEMENTS, enough_cells};
use kinds::Kind;
use reels::{Pcm, Reel};
use tracks::{Piece, blank, lay_all};

// What is told where nothing is done.
const IDLE: Pace = Pace {
    sum: 0,
    free: CELLS as u32,
};

// The cells that a run has.
const CELLS: usize = 8192;

// The most elements that a run is built of.
const PIECES: usize = 4096;

// The rounds of putting in, where the track has room for what is put in.
fn puts_with<K: Kind>(store: &mut Store<'_, K>, root: u32, clip: u32, rounds: u32) -> u64
    requires owns { Owns (K.meaning store.old.kind.now) store.old.cells.now store.old.pool [] (root ∷ clip ∷ []) (2 ^ 15) }
    requires few { length (list store.old.cells.now root) + length (list store.old.cells.now clip) ≤ 2 * element_limit }
    requires some { edit_takes ≤ store.old.pool.free }
    ensures same { SameLoan store.old store.new }
    ensures rests { Rests (K.meaning store.old.kind.now) store.old.cells.now store.old.pool store.new.cells.now store.new.pool }
{
    let elements = store.count_at(root) + store.count_at(clip);
    let extent = extent_at(store, root) + extent_at(store, clip);
    if elements > MOST_ELEMENTS || extent > LIMIT {
        return 0;
    }
    puts(store, root, clip, rounds)
}

// A hundredth of the track is put in again and again.
fn with_clip<K: Kind>(store: &mut Store<'_, K>, root: u32, rounds: u32) -> u64
    requires owns { Owns (K.meaning store.old.kind.now) store.old.cells.now store.old.pool [] (root ∷ []) (2 ^ 14) }
    requires few { length (list store.old.cells.now root) ≤ element_limit }
    requires some { 2048 ≤ store.old.pool.free }
    ensures same { SameLoan store.old store.new }
    ensures rests { Rests (K.meaning store.old.kind.now) store.old.cells.now store.old.pool store.new.cells.now store.new.pool }
{
    let end = extent_at(store, root);
    let clip = copy(store, root, 0, end / 100);
    let sum = puts_with(store, root, clip, rounds);
    store.release(clip);
    sum
}

// The rounds of one kind of work. C names it by a number, so no closure comes in.
fn worked<K: Kind>(store: &mut Store<'_, K>, root: u32, work: Work, rounds: u32) -> u64
    requires owns { Owns (K.meaning store.old.kind.now) store.old.cells.now store.old.pool [] (root ∷ []) (2 ^ 14) }
    requires few { length (list store.old.cells.now root) ≤ element_limit }
    ensures same { SameLoan store.old store.new }
    ensures rests { Rests (K.meaning store.old.kind.now) store.old.cells.now store.old.pool store.new.cells.now store.new.pool }
{
    if enough_cells(store.pool.free as usize).is_err() || extent_at(store, root) == 0 {
        return 0;
    }
    match work {
        Work::Put => with_clip(store, root, rounds),
        Work::Cut => cuts(store, root, rounds),
        Work::Read => reads(store, root, rounds),
        Work::Overview => overviews(store, root, rounds),
    }
}

// A track of so many elements of equal extents over the reel, and the rounds over it.
fn paced(kind: &Audio<Pcm<'_>>, frames: u32, elements: u32, work: Work, rounds: u32) -> Pace
    ensures { result.free ≡ 8192 }
{
    if elements == 0 || elements as usize > PIECES {
        return IDLE;
    }
    let width = frames / elements;
    let Ok(element) = kind.make(0, width) else {
        return IDLE;
    };
    // Fixed memory: no heap is asked, and C lends none.
    let mut cells = [blank(kind, element); CELLS];
    let mut pieces = [Piece {
        first: 0,
        second: width,
    }; PIECES];
    let pieces = &mut pieces[0..elements as usize];
    let mut first = 0u32;
    for piece in pieces.iter_mut() {
        piece.first = first;
        first = first.saturating_add(width);
    }
    run(kind, &mut cells, pieces, work, rounds)
}

// Builds the track, does the rounds, and gives everything back.
fn run<K: Kind>(
    kind: &K,
    cells: &mut [Cell<K::Element, K::Summary>],
    pieces: &[Piece],
    work: Work,
    rounds: u32,
) -> Pace
    requires { length cells.old ≡ 8192 }
    ensures { result.free ≡ 8192 }
{
    let mut store = Store::start(kind, cells);
    let laid = lay_all(&mut store, pieces);
    let sum = worked(&mut store, laid.root, work, rounds);
    store.release(laid.root);
    Pace {
        sum,
        free: store.free(),
    }
}

// Over PCM bytes; bytes that are no reel are no work, and neither is a number that names none.
#[unsafe(no_mangle)]
pub extern "C" fn pace_of(bytes: &[u8], elements: u32, work: u32, rounds: u32) -> Pace
    ensures { result.free ≡ 8192 }
{
    match (Pcm::new(bytes), Work::try_from(work)) {
        (Ok(reel), Ok(work)) => paced(&Audio::new(reel), reel.len(), elements, work, rounds),
        _ => IDLE,
    }
}
