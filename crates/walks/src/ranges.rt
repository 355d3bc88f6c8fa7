// The summary of a range. Two walks go down from the cell at which the range parts, one to each end; what lies between them
// is taken by the summaries of cells, and only the two end pieces are asked of the kind.
ghost use Rattle.std.specs.Prelude.{◌≡◌, ℕ, ◌+◌, ◌<◌, ◌≤◌, take, drop};
ghost use Rattle.kinds.specs.Kinds.{Lawful, Within, total};
ghost use Rattle.balance.specs.Ways.{span};
ghost use Rattle.cells.specs.Cells.{shape, tree, meant};
ghost use Rattle.walks.specs.Ranges.{Forked};

use crate::answers::Fork;
use crate::view::View;
use cells::{Cell, cell_at, summary_at};
use kinds::Kind;

// The summary of `len` atoms of a cell's element from the atom `from` on.
fn piece<K: Kind>(kind: &K, c: Cell<K::Element, K::Summary>, from: u32, len: u32) -> K::Summary
    requires lawful { Lawful (K.meaning kind.now) c.element }
    requires owns { c.own ≡ total (K.meaning kind.now) ((K.meaning kind.now).atoms c.element) }
    requires within { Within (K.meaning kind.now) c.element from len }
    ensures { result ≡ total (K.meaning kind.now) (take len (drop from ((K.meaning kind.now).atoms c.element))) }
{
    if len == kind.extent(c.element) {
        c.own
    } else {
        kind.summary(kind.part(c.element, from, len))
    }
}

impl<'a, K: Kind> View<'a, K> {
    // The summary of all but the first `from` atoms.
    fn tail_summary(&self, from: u32) -> K::Summary
        requires { from ≤ span (shape (K.meaning self.now.kind)) (tree self.now.cells self.now.root) }
        ensures { result ≡ total (K.meaning self.now.kind) (drop from (meant (K.meaning self.now.kind) (tree self.now.cells self.now.root))) }
    {
        let mut sum = self.kind.empty();
        if from == self.width() {
            return sum;
        }
        let mut cell = self.root;
        let mut at = from;
        loop {
            if at == 0 {
                return self.kind.join(summary_at(self.kind, self.cells, cell), sum);
            }
            let c = cell_at(self.cells, cell);
            let before = self.at(c.left).width();
            if at < before {
                let right = summary_at(self.kind, self.cells, c.right);
                sum = self.kind.join(c.own, self.kind.join(right, sum));
                cell = c.left;
            } else {
                let past = at - before;
                let own = self.kind.extent(c.element);
                if past < own {
                    let right = summary_at(self.kind, self.cells, c.right);
                    return self.kind.join(
                        piece(self.kind, c, past, own - past),
                        self.kind.join(right, sum),
                    );
                }
                at = past - own;
                cell = c.right;
            }
        }
    }

    // The summary of the first `len` atoms. It mirrors the tail's; one function with a side would choose at each of its lines.
    fn head_summary(&self, len: u32) -> K::Summary
        requires { len ≤ span (shape (K.meaning self.now.kind)) (tree self.now.cells self.now.root) }
        ensures { result ≡ total (K.meaning self.now.kind) (take len (meant (K.meaning self.now.kind) (tree self.now.cells self.now.root))) }
    {
        let mut sum = self.kind.empty();
        if len == 0 {
            return sum;
        }
        let mut cell = self.root;
        let mut rest = len;
        loop {
            let whole = summary_at(self.kind, self.cells, cell);
            if rest == self.kind.width(whole) {
                return self.kind.join(sum, whole);
            }
            let c = cell_at(self.cells, cell);
            let left = summary_at(self.kind, self.cells, c.left);
            let before = self.kind.width(left);
            if rest <= before {
                cell = c.left;
            } else {
                let past = rest - before;
                let own = self.kind.extent(c.element);
                sum = self.kind.join(sum, left);
                if past <= own {
                    return self.kind.join(sum, piece(self.kind, c, 0, past));
                }
                sum = self.kind.join(sum, c.own);
                rest = past - own;
                cell = c.right;
            }
        }
    }

    // The lowest cell under which the whole range lies.
    fn fork(&self, from: u32, len: u32) -> Fork
        requires some { 1 ≤ len }
        requires within { from + len ≤ span (shape (K.meaning self.now.kind)) (tree self.now.cells self.now.root) }
        ensures { Forked (K.meaning self.now.kind) self.now.cells self.now.root from len result }
    {
        let mut cell = self.root;
        let mut at = from;
        loop {
            let c = cell_at(self.cells, cell);
            let before = self.at(c.left).width();
            if at + len <= before {
                cell = c.left;
            } else {
                let past = before + self.kind.extent(c.element);
                if at < past {
                    return Fork { cell, from: at };
                }
                at -= past;
                cell = c.right;
            }
        }
    }

    // The summary of the `len` atoms from the place `from` on.
    pub fn overview(&self, from: u32, len: u32) -> K::Summary
        requires some { 1 ≤ len }
        requires within { from + len ≤ span (shape (K.meaning self.now.kind)) (tree self.now.cells self.now.root) }
        ensures { result ≡ total (K.meaning self.now.kind) (take len (drop from (meant (K.meaning self.now.kind) (tree self.now.cells self.now.root)))) }
    {
        let parted = self.fork(from, len);
        let c = cell_at(self.cells, parted.cell);
        let left = self.at(c.left);
        let before = left.width();
        let own = self.kind.extent(c.element);
        let skipped = parted.from.saturating_sub(before);
        let rest = len - before.saturating_sub(parted.from);
        let taken = rest.min(own - skipped);
        let tail = left.tail_summary(parted.from.min(before));
        let middle = piece(self.kind, c, skipped, taken);
        let head = self.at(c.right).head_summary(rest - taken);
        self.kind.join(tail, self.kind.join(middle, head))
    }
}
