ghost use Rattle.std.specs.Prelude.{◌≡◌, ℕ, ◌<◌, length, slice_index_or, IfOk};
ghost use Rattle.nfit_reader.specs.declared.table.Mapping.{Mapping};
ghost use Rattle.interleave.specs.Sound.{HavePositions};

use nfit_reader::Mapping;
use std::alloc::{AllocError, Global};

/// Returns a number above each module's.
fn numbers_in(mappings: &[Mapping]) -> usize
    ensures { (p : ℕ) (d : Mapping) → p < length mappings.now →
        (slice_index_or mappings.now p d).«module» < result }
{
    let mut numbers = 0;
    for position in 0..mappings.len() {
        numbers = numbers.max(mappings[position].module as usize + 1);
    }
    numbers
}

/// Writes the position of each module at its number.
fn write_positions(positions: &mut [usize], mappings: &[Mapping])
    requires { (p : ℕ) (d : Mapping) → p < length mappings.now →
        (slice_index_or mappings.now p d).«module» < length positions.old }
    ensures { HavePositions mappings.now positions.new (length mappings.now) }
{
    for position in 0..mappings.len() {
        positions[mappings[position].module as usize] = position;
    }
}

/// Returns the position of each module, by its number. It is 0 for a number that no module of the
/// set has.
pub fn positions_of(alloc: Global, mappings: &[Mapping]) -> Result<Vec<usize>, AllocError>
    ensures { IfOk result (λ positions.
        HavePositions mappings.now positions.items (length mappings.now)) }
{
    let mut positions = vec![in alloc; 0usize; numbers_in(mappings)]?;
    write_positions(&mut positions, mappings);
    Ok(positions)
}
