ghost use Rattle.std.specs.Prelude.{◌≡◌, IfOk};

use nfit_reader::{Lines, Mapping};
use std::alloc::{AllocError, Global};

fn share_where_there(lines: &Option<Lines>) -> Result<Option<Lines>, AllocError>
    ensures { IfOk result (λ copy. copy ≡ lines.now) }
{
    match lines {
        Some(lines) => Ok(Some(lines.share()?)),
        None => Ok(None),
    }
}

fn copy_of(mapping: &Mapping) -> Result<Mapping, AllocError>
    ensures { IfOk result (λ copy. copy ≡ mapping.now) }
{
    Ok(Mapping {
        module: mapping.module,
        size: mapping.size,
        offset: mapping.offset,
        start: mapping.start,
        ways: mapping.ways,
        lines: share_where_there(&mapping.lines)?,
        identity: mapping.identity,
    })
}

/// Copies mappings; the copies share their lists of lines.
pub fn copies(alloc: Global, mappings: &[Mapping]) -> Result<Vec<Mapping>, AllocError>
    ensures { IfOk result (λ list. list.items ≡ mappings.now) }
{
    let mut list = Vec::new(alloc);
    for position in 0..mappings.len() {
        list.push(copy_of(&mappings[position])?)?;
    }
    Ok(list)
}
