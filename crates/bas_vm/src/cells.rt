ghost use Rattle.std.specs.Prelude.{◌≡◌, ℕ, [], replicate, OnOk, IfOk, slice_get};
ghost use Rattle.std.specs.Option.{option_map};
ghost use Rattle.bas_mean.specs.World.{fresh_cell};
ghost use Rattle.bas_code.specs.State.{spot_of};
ghost use Rattle.bas_vm.specs.Shown.{reference, cells_of, cell_with, frame_of};

use bas_code::{Place, Space};
use bas_dec::Dec;
use std::alloc::{AllocError, Global};

/// The numbers in the cells of that many slots, as a program begins.
pub fn fresh_cells(alloc: Global, slots: u16) -> Result<Vec<Dec>, AllocError>
    ensures { IfOk result (λ cells. cells_of cells.items ≡ replicate slots fresh_cell) }
{
    let zero = Dec::of_parts(0, 0).unwrap();
    vec![in alloc; zero; usize::from(slots)]
}

/// The number of the cell at a place, for a program with that many slots.
pub fn cell_number(place: Place, slots: u16) -> Option<u16>
    ensures { option_map reference result ≡ spot_of place (frame_of slots) }
{
    match place.space {
        Space::Own => {
            if place.number < slots {
                Some(place.number)
            } else {
                None
            }
        }
        Space::Module => Some(place.number),
        Space::Container => None,
        Space::Use => None,
    }
}

/// The number in a cell.
pub fn number_in(cells: &[Dec], n: u16) -> Option<Dec>
    ensures { option_map cell_with result ≡ slice_get (cells_of cells.now) n }
{
    let n = usize::from(n);
    if n < cells.len() {
        Some(cells[n])
    } else {
        None
    }
}
