// All cells free, whatever they held before.
ghost use Rattle.std.specs.Prelude.{◌≡◌, ◌≤◌, [], length};
ghost use Rattle.cells.specs.References.{Arena};

use crate::cell::Cell;
use crate::pool::Pool;
use crate::store::Store;
use kinds::Kind;

impl<'a, K: Kind> Store<'a, K> {
    // Chains the cells in the order of their numbers; the number after the last names none. No root is owned.
    pub fn start(kind: &'a K, cells: &'a mut [Cell<K::Element, K::Summary>]) -> Store<'a, K>
        requires { length cells.old ≤ 65535 }
        ensures kind { result.kind ≡ kind.entry }
        ensures lent { result.cells.ghost_name ≡ cells.entry.ghost_name }
        ensures arena { Arena (K.meaning result.kind.now) result.cells.now result.pool [] }
        ensures free { result.pool.free ≡ length cells.old }
        ensures size { length result.cells.now ≡ length cells.old }
    {
        let free = cells.len() as u32;
        for (i, cell) in cells.iter_mut().enumerate() {
            cell.left = i as u32 + 1;
            cell.refs = 0;
        }
        Store {
            kind,
            cells,
            pool: Pool { head: 0, free },
        }
    }
}
