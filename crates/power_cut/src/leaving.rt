//! Label areas and contents after a crash.
ghost use Rattle.std.specs.Prelude.{◌≡◌, [], IfOk};
ghost use Rattle.std.specs.List.{All};
ghost use Rattle.cut_words.specs.Words.{IsLeft};
ghost use Rattle.power_cut.specs.Left.{Each, InTurn, IsLeftOf, LeavesAll, LeavesOption, LeavesWith, LeavesWords, IsLeftOfAll, AreAtPlaces, AreRunsApart, IsPlaced};

use crate::placing::put_arenas;
use cut_words::CutWords;
use nvd_media::Chooser;
use nvd_words::Items;
use std::alloc::{AllocError, Global};

/// The parts of an image set after a crash, by module number: words of 8 bytes, the low byte first.
#[derive(Debug, Drop)]
pub struct Images {
    /// The label area of each module that has one, from its byte 0.
    pub labels: Items<Option<Items<u64>>>,
    /// The contents of each module, from its device address 0.
    pub contents: Items<Items<u64>>,
}

/// A device address of a module, by the module's number.
#[derive(Clone, Copy, Debug, PartialEq, Eq)]
pub struct Place {
    pub module: u32,
    pub address: u64,
}

/// The words of an arena after a crash, and their places in the contents.
#[derive(Debug, Drop)]
pub struct ArenaLeft {
    /// The arena's words, in order.
    pub words: Items<u64>,
    /// The place of each run of words: that of its first word.
    pub places: Items<Place>,
    /// How many words a run has.
    pub run: u32,
}

/// Returns a row of words after a crash. It takes no memory.
fn leave_words<C: Chooser>(words: CutWords, choose: &mut C) -> Items<u64>
    ensures asked { LeavesWords C.picks words result choose.old choose.new }
    ensures left { IsLeft words result }
{
    Items::from_vec(words.leave(choose))
}

/// Returns a label area after a crash, if there is one.
fn leave_area<C: Chooser>(area: Option<CutWords>, choose: &mut C) -> Option<Items<u64>>
    ensures asked { LeavesOption C.picks area result choose.old choose.new }
    ensures left { IsLeftOf area result }
{
    match area {
        Some(words) => Some(leave_words(words, choose)),
        None => None,
    }
}

/// Returns all label areas after a crash, in order of the modules.
fn leave_areas<C: Chooser>(
    alloc: Global,
    areas: Items<Option<CutWords>>,
    choose: &mut C,
) -> Result<Items<Option<Items<u64>>>, AllocError>
    ensures asked { IfOk result (λ left. InTurn (LeavesOption C.picks) areas left choose.old choose.new) }
    ensures left { IfOk result (Each IsLeftOf areas) }
{
    let mut left = Items::new(alloc);
    for area in areas.into_vec() {
        left.push(leave_area(area, choose))?;
    }
    Ok(left)
}

/// Returns all contents after a crash, in order of the modules.
fn leave_contents<C: Chooser>(
    alloc: Global,
    contents: Items<CutWords>,
    choose: &mut C,
) -> Result<Items<Items<u64>>, AllocError>
    ensures asked { IfOk result (λ left. InTurn (LeavesWords C.picks) contents left choose.old choose.new) }
    ensures left { IfOk result (Each IsLeft contents) }
{
    let mut left = Items::new(alloc);
    for words in contents.into_vec() {
        left.push(leave_words(words, choose))?;
    }
    Ok(left)
}

/// Returns the label areas and the contents of all modules after a crash, with the words of arenas
/// at their places. These are already the arenas' words after the crash.
///
/// Each arena must have one place for each `run` of its words, and `run` must be at least 1
/// (`runs`, `counts`). A place must be a multiple of 8 bytes (`eights`), and its run must lie in
/// the contents of an existing module (`inside`). None of these words of the contents may be
/// pending (`kept`): only the holder of an arena stores into its words. No word of the contents may
/// belong to two places, of one arena or of two (`apart`).
///
/// - `asked`: the chooser is asked for the label areas in order of the modules, then for the
///   contents in order of the modules, once for each pending word of a row, in ascending order; its
///   answers decide. Then each word of the contents that is an arena's place has the arena's word.
/// - `each`, in the same clause: before the arenas are put there, each word of a part has,
///   independently, its kept value or the one that a load returns. A missing label area stays
///   missing.
/// - `at_places`: word by word, each arena is at its places.
/// - `alone`: without arenas, the chooser's answers alone decide the images.
///
/// The call fails only if memory runs out; it allocates a few bytes for each module and doesn't
/// move the words. Then nothing is returned.
pub fn leave_all<C: Chooser>(
    alloc: Global,
    labels: Items<Option<CutWords>>,
    contents: Items<CutWords>,
    arenas: Vec<ArenaLeft>,
    choose: &mut C,
) -> Result<Images, AllocError>
    requires placed { All (IsPlaced contents) arenas.items }
    requires apart { AreRunsApart arenas.items }
    ensures asked { IfOk result (λ images. LeavesWith C.picks labels contents arenas.items images choose.old choose.new) }
    ensures at_places { IfOk result (λ images. AreAtPlaces arenas.items images.contents) }
    ensures alone { IfOk result (λ images. arenas.items ≡ []
        → LeavesAll C.picks labels contents images choose.old choose.new × IsLeftOfAll labels contents images) }
{
    let labels = leave_areas(alloc, labels, choose)?;
    let contents = leave_contents(alloc, contents, choose)?;
    let contents = put_arenas(alloc, contents, arenas);
    Ok(Images { labels, contents })
}
