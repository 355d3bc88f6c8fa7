// The flat sequence: what a session means, as plain lists. The definitions stand in specs/; the
// functions here are the conditions that need no list, and promises names what is proved of them.
#![tactic(auto)]

ghost use Rattle.std.specs.Prelude.{◌≡◌, Some, None, MatchResult};
ghost use Rattle.flat.specs.Refusals.{empty_range_fault, few_cells_fault};

use faults::SessionFault;

mod promises;

pub use promises::{
    acceptance_stands, finds_stand, holds_stand, places_stand, reads_stand, refusals_stand,
    runs_stand,
};

// A track has at most so many elements.
pub const MOST_ELEMENTS: u32 = 4095;

// An edit or a copy wants this many cells free, whatever it then takes.
pub const CELLS_WANTED: usize = 2048;

// Refuses a range of no atoms.
pub fn not_empty(len: u32) -> Result<(), SessionFault>
    ensures { MatchResult result (λ _. empty_range_fault len ≡ None) (λ f. empty_range_fault len ≡ Some f) }
{
    if len == 0 {
        return Err(SessionFault::EmptyRange);
    }
    Ok(())
}

// Refuses an edit or a copy that finds too few cells free.
pub fn enough_cells(free: usize) -> Result<(), SessionFault>
    ensures { MatchResult result (λ _. few_cells_fault free ≡ None) (λ f. few_cells_fault free ≡ Some f) }
{
    if free < CELLS_WANTED {
        return Err(SessionFault::FewCells);
    }
    Ok(())
}
