// Writing a cell: one reference more, or one fewer.
ghost use Rattle.std.specs.Prelude.{◌≡◌, ◌^◌, ◌<◌, [], ◌∷◌, length, slice_set};
ghost use Rattle.cells.specs.declared.pool.Pool.{Pool};
ghost use Rattle.cells.specs.Cells.{Live};
ghost use Rattle.cells.specs.References.{Holds, Owned};
ghost use Rattle.cells.specs.Lent.{SameLoan};
ghost use Rattle.cells.specs.Moves.{retained, Retains, GivesUp};

use crate::cell::Cell;
use crate::store::Store;
use kinds::Kind;

impl<K: Kind> Store<'_, K> {
    // Writes the cell `i`. A method, since after other calls the bounds of a written index are left to be shown by hand.
    pub(crate) fn put(&mut self, i: u32, cell: Cell<K::Element, K::Summary>)
        requires { i < length self.old.cells.now }
        ensures same { SameLoan self.old self.new }
        ensures pool { self.new.pool ≡ self.old.pool }
        ensures cells { self.new.cells.now ≡ slice_set self.old.cells.now i cell }
    {
        self.cells[i as usize] = cell;
    }

    // Owns what `i` names once more. The cell is written by index: of what is written through `get_mut` no contract tells.
    pub fn retain(&mut self, i: u32)
        requires holds { (p : Pool) × Holds (K.meaning self.old.kind.now) self.old.cells.now p [] (2 ^ 30) }
        requires live { Live self.old.cells.now i }
        ensures same { SameLoan self.old self.new }
        ensures pool { self.new.pool ≡ self.old.pool }
        ensures exact { self.new.cells.now ≡ retained self.old.cells.now i }
        ensures retains { Retains (K.meaning self.old.kind.now) self.old.cells.now i self.new.cells.now }
    {
        if (i as usize) < self.cells.len() {
            self.cells[i as usize].refs += 1;
        }
    }

    // Gives up one reference to what `i` names. Where it was the last one to a cell, the cell is free and handed out as it
    // was: its children are owed in its place.
    pub(crate) fn give_up(&mut self, i: u32) -> Option<Cell<K::Element, K::Summary>>
        requires { Owned (K.meaning self.old.kind.now) self.old.cells.now self.old.pool (i ∷ []) }
        ensures same { SameLoan self.old self.new }
        ensures given { GivesUp (K.meaning self.old.kind.now) self.old.cells.now self.old.pool i self.new.cells.now self.new.pool result }
    {
        let c = self.get(i)?;
        if c.refs > 1 {
            self.cells[i as usize].refs -= 1;
            return None;
        }
        self.cells[i as usize] = Cell {
            refs: 0,
            left: self.pool.head,
            ..c
        };
        self.pool.head = i;
        self.pool.free += 1;
        Some(c)
    }
}
