// Taking cells apart. The cell stays: what it holds is copied, and its children are owned once more.
ghost use Rattle.std.specs.Prelude.{◌≡◌, ◌^◌, ◌<◌, [], ◌∷◌, length};
ghost use Rattle.cells.specs.declared.pool.Pool.{Pool};
ghost use Rattle.cells.specs.References.{Holds};
ghost use Rattle.cells.specs.Lent.{SameLoan};
ghost use Rattle.links.specs.Opened.{Opens};

use crate::facing::{far_of, near_of};
use crate::parts::Parts;
use cells::{Item, Store};
use kinds::Kind;

// The parts of the owned cell `i`, both children owned.
pub fn open<K: Kind>(store: &mut Store<'_, K>, flip: bool, i: u32) -> Parts<K::Element, K::Summary>
    requires holds { (p : Pool) × Holds (K.meaning store.old.kind.now) store.old.cells.now p (i ∷ []) (2 ^ 29) }
    requires inside { i < length store.old.cells.now }
    ensures same { SameLoan store.old store.new }
    ensures pool { store.new.pool ≡ store.old.pool }
    ensures opens { Opens (K.meaning store.old.kind.now) flip store.old.cells.now i store.new.cells.now result }
{
    let c = store.cell_at(i);
    let near = near_of(flip, c);
    let far = far_of(flip, c);
    store.retain(near);
    store.retain(far);
    Parts {
        near,
        item: Item::from(c),
        far,
    }
}
