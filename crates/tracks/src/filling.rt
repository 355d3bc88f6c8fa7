ghost use Rattle.std.specs.Prelude.{◌≡◌};

use cells::{Cell, NONE};
use kinds::Kind;

// A cell that is in no tree, to fill memory with that is to be lent.
pub fn blank<K: Kind>(kind: &K, element: K::Element) -> Cell<K::Element, K::Summary>
    ensures element { result.element ≡ element }
    ensures free { (result.refs ≡ 0) × (result.count ≡ 0) }
{
    let own = kind.empty();
    Cell {
        element,
        own,
        left: NONE,
        right: NONE,
        count: 0,
        summary: own,
        refs: 0,
    }
}
