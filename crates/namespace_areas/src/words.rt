//! The words of all areas.
ghost use Rattle.std.specs.Prelude.{◌≡◌, IfOk, map};
ghost use Rattle.namespace_areas.specs.Seen.{words_of};

use crate::Area;
use cut_words::CutWords;
use nvd_words::Items;
use std::alloc::{AllocError, Global};

/// The words of an area, if there is one.
fn words_of(area: Area) -> Option<CutWords>
    ensures { result ≡ words_of area }
{
    match area {
        Area::Absent => None,
        Area::Refused(refused) => Some(refused.words),
        Area::Ready(area) => Some(area.into_words()),
    }
}

/// The words of the label areas of all modules, by the modules' numbers: none for a module that has no area.
///
/// A crash may make of these words just what it may make of the areas' words (`AreLeft`). The one error is out of memory; then
/// the areas are dropped.
pub fn into_words(alloc: Global, areas: Vec<Area>) -> Result<Items<Option<CutWords>>, AllocError>
    ensures { IfOk result (λ words. words ≡ map words_of areas.items) }
{
    let mut words = Items::new(alloc);
    for area in areas {
        words.push(words_of(area))?;
    }
    Ok(words)
}
