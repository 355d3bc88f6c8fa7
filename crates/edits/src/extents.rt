ghost use Rattle.std.specs.Prelude.{◌≡◌};
ghost use Rattle.kinds.specs.Places.{extent_of};
ghost use Rattle.cells.specs.Cells.{Live, Sound};
ghost use Rattle.edits.specs.Edits.{list};

use cells::Store;
use kinds::Kind;
use walks::View;

// The extent of the list of `root`.
pub fn extent_at<K: Kind>(store: &Store<'_, K>, root: u32) -> u32
    requires sound { Sound (K.meaning store.now.kind.now) store.now.cells.now }
    requires live { Live store.now.cells.now root }
    ensures { result ≡ extent_of (K.meaning store.now.kind.now) (list store.now.cells.now root) }
{
    View::of(store, root).width()
}
