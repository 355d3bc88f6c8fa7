// The walk to a tally: down by the tallies of summaries, then by halves within the element that it ends at.
ghost use Rattle.std.specs.Prelude.{◌<◌, ◌≤◌};
ghost use Rattle.kinds.specs.Kinds.{Lawful, Tallies, total};
ghost use Rattle.balance.specs.Levels.{most};
ghost use Rattle.cells.specs.Cells.{tree, meant, cell_count};
ghost use Rattle.walks.specs.Paths.{ByPath};
ghost use Rattle.walks.specs.Tallying.{Passes, Finds};

use crate::answers::Located;
use crate::view::View;
use cells::{cell_at, summary_at};
use kinds::{Kind, Tally};

// The atom of the element at which its tally passes `t`. Each turn asks for half as many atoms as the one before.
fn find_within<K: Tally>(kind: &K, element: K::Element, t: u64) -> u32
    requires lawful { Lawful (K.Kind.meaning kind.now) element }
    requires adds { Tallies (K.Kind.meaning kind.now) (K.tallied kind.now) }
    requires below { t < K.tallied kind.now (total (K.Kind.meaning kind.now) ((K.Kind.meaning kind.now).atoms element)) }
    ensures { Passes (K.Kind.meaning kind.now) (K.tallied kind.now) ((K.Kind.meaning kind.now).atoms element) t result }
{
    let mut from = 0;
    let mut len = kind.extent(element);
    let mut rest = t;
    while len > 1 {
        let half = len / 2;
        let tally = kind.tally(kind.summary(kind.part(element, from, half)));
        if rest < tally {
            len = half;
        } else {
            rest -= tally;
            from += half;
            len -= half;
        }
    }
    from
}

impl<'a, K: Tally> View<'a, K> {
    // The place at which the tally of the tree passes `t`.
    pub fn find(&self, t: u64) -> Located
        requires few { cell_count self.now.cells self.now.root ≤ most }
        requires adds { Tallies (K.Kind.meaning self.now.kind) (K.tallied self.now.kind) }
        requires below { t < K.tallied self.now.kind (total (K.Kind.meaning self.now.kind) (meant (K.Kind.meaning self.now.kind) (tree self.now.cells self.now.root))) }
        ensures finds { Finds (K.Kind.meaning self.now.kind) (K.tallied self.now.kind) self.now.cells self.now.root t result }
        ensures path { ByPath (K.Kind.meaning self.now.kind) self.now.cells self.now.root result.place result.count }
    {
        let mut cell = self.root;
        let mut rest = t;
        let mut base = 0;
        // Counted on the way: a path would be kept for its length alone.
        let mut count = 0;
        loop {
            let c = cell_at(self.cells, cell);
            count += 1;
            let left = summary_at(self.kind, self.cells, c.left);
            let before = self.kind.tally(left);
            if rest < before {
                cell = c.left;
            } else {
                let past = rest - before;
                let own = self.kind.tally(c.own);
                let start = base + self.kind.width(left);
                if past < own {
                    return Located {
                        place: start + find_within(self.kind, c.element, past),
                        count,
                    };
                }
                rest = past - own;
                base = start + self.kind.extent(c.element);
                cell = c.right;
            }
        }
    }
}
