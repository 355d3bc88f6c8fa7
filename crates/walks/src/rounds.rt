// Going through the elements of a range in order. Each cell is put into the cursor's table once and taken out once, so no
// element is searched for from the root again.
ghost use Rattle.std.specs.Prelude.{◌+◌, ◌<◌, ◌≤◌, length, take, MatchOption};
ghost use Rattle.kinds.specs.Kinds.{Lawful};
ghost use Rattle.balance.specs.Levels.{most};
ghost use Rattle.balance.specs.Ways.{span};
ghost use Rattle.cells.specs.Cells.{shape, tree, cell_count, Live, Sound};
ghost use Rattle.walks.specs.Cursors.{Behind, Ready, Begins, Gave, Ended};
ghost use Rattle.walks.specs.Nesting.{Nested};
ghost use Rattle.walks.specs.Spines.{Spine};

use crate::cursor::Cursor;
use crate::view::View;
use cells::{Cell, Path, cell_at, count_at};
use kinds::Kind;

// What an element has from its atom `d` on.
fn from_offset<K: Kind>(kind: &K, element: K::Element, d: u32) -> K::Element
    requires lawful { Lawful (K.meaning kind.now) element }
    requires inside { d < length ((K.meaning kind.now).atoms element) }
    ensures { Behind (K.meaning kind.now) element d result }
{
    if d == 0 {
        element
    } else {
        kind.part(element, d, kind.extent(element) - d)
    }
}

impl<'a, K: Kind> View<'a, K> {
    // A cursor over the `len` atoms from the place `from` on.
    pub fn cursor(&self, from: u32, len: u32) -> Cursor
        requires some { 1 ≤ len }
        requires within { from + len ≤ span (shape (K.meaning self.now.kind)) (tree self.now.cells self.now.root) }
        requires few { cell_count self.now.cells self.now.root ≤ most }
        ensures { Begins (K.meaning self.now.kind) self.now.cells self.now.root from len result }
    {
        // What stands of the view is known once a field of it is named.
        let _ = &self.cells;
        let (mut lefts, mut rights) = (Path::new(), Path::new());
        let found = self.descend(from, &mut lefts, &mut rights);
        let depth = lefts.len();
        let mut table = [0; 64];
        table[..depth].copy_from_slice(lefts.as_slice());
        table[depth] = found.cell;
        Cursor {
            table,
            depth: depth + 1,
            offset: found.offset,
            left: len,
        }
    }
}

impl Cursor {
    // Puts a cell, its left child, that one's left child and so on into the table.
    fn go_down<K: Kind>(&mut self, kind: &K, cells: &[Cell<K::Element, K::Summary>], link: u32)
        requires sound { Sound (K.meaning kind.now) cells.now }
        requires live { Live cells.now link }
        requires fits { self.old.depth ≤ 64 }
        requires nested { Nested cells.now (most + 1) (take self.old.depth self.old.table) (cell_count cells.now link + 1) }
        ensures { Spine cells.now (take self.old.depth self.old.table) link self.new.table self.new.depth }
    {
        let mut cell = link;
        while count_at(cells, cell) > 0 {
            self.table[self.depth] = cell;
            self.depth += 1;
            cell = cell_at(cells, cell).left;
        }
    }

    // The next element of the range, and at its ends what the range has of one.
    pub fn advance<K: Kind>(
        &mut self,
        kind: &K,
        cells: &[Cell<K::Element, K::Summary>],
    ) -> Option<K::Element>
        requires sound { Sound (K.meaning kind.now) cells.now }
        requires ready { Ready (K.meaning kind.now) cells.now self.old }
        ensures ready { Ready (K.meaning kind.now) cells.now self.new }
        ensures given { MatchOption result (Ended (K.meaning kind.now) cells.now self.old self.new) (Gave (K.meaning kind.now) cells.now self.old self.new) }
    {
        let left = self.left;
        if left == 0 {
            return None;
        }
        self.depth -= 1;
        let c = cell_at(cells, self.table[self.depth]);
        let rest = from_offset(kind, c.element, self.offset);
        let width = kind.extent(rest);
        self.go_down(kind, cells, c.right);
        self.offset = 0;
        if left < width {
            self.left = 0;
            return Some(kind.part(rest, 0, left));
        }
        self.left = left - width;
        Some(rest)
    }
}
