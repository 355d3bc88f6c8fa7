// What a cell is made of, besides its children.
ghost use Rattle.std.specs.Prelude.{◌≡◌};
ghost use Rattle.kinds.specs.Kinds.{Lawful};
ghost use Rattle.cells.specs.Cells.{Whole};

use crate::cell::Cell;
use kinds::Kind;

// An element with its own summary.
#[derive(Clone, Copy)]
pub struct Item<E, S> {
    pub element: E,
    pub own: S,
}

impl<E, S> Item<E, S> {
    // The element with its summary by the kind.
    pub fn of<K: Kind<Element = E, Summary = S>>(kind: &K, element: E) -> Self
    where
        E: Copy,
        ensures element { result.element ≡ element }
        ensures whole { Lawful (K.meaning kind.now) element → Whole (K.meaning kind.now) result }
    {
        Item {
            element,
            own: kind.summary(element),
        }
    }
}

impl<E: Copy, S: Copy> From<Cell<E, S>> for Item<E, S> {
    ghost from_gives = { λ c item. item ≡ record { element = c.element; own = c.own } };

    fn from(c: Cell<E, S>) -> Self {
        Item {
            element: c.element,
            own: c.own,
        }
    }
}
