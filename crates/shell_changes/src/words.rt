//! The commands on namespaces that the words of a command line say.
ghost use Rattle.std.specs.Prelude.{◌≡◌, ◌≤◌, IfSome};
ghost use Rattle.command_words.specs.Parsed.{rows};
ghost use Rattle.shell_changes.specs.Words.{create_in, delete_in, lanes_in, make_in, make_of, rename_in, sector_in};
ghost use Rattle.namespace_ops.specs.Carried.{HasGoodName, IsGoodName};

use command_words::Parsed;
use namespace_map::{Command, CreateSpec, Make};
use namespace_ops::named;

/// The greatest number of a region, and of the bytes of a sector.
const LAST: u64 = u32::MAX as u64;

/// The bytes of a sector if the words say none.
const SECTOR: u64 = 512;

/// How many writers an arena has room for if the words don't say; it is the most, too.
const LANES: u64 = 256;

/// The bytes of a sector.
fn sector_in(values: &Parsed<'_>) -> Option<u64>
    ensures sector { result ≡ sector_in (rows values.now) }
    ensures small { IfSome result (λ n. n ≤ 4294967295) }
{
    let sector = values.optional_number("sector", 0, LAST)?;
    Some(sector.unwrap_or(SECTOR))
}

/// How many lanes.
fn lanes_in(values: &Parsed<'_>) -> Option<u64>
    ensures lanes { result ≡ lanes_in (rows values.now) }
    ensures few { IfSome result (λ n. n ≤ 256) }
{
    let lanes = values.optional_number("lanes", 1, LANES)?;
    Some(lanes.unwrap_or(LANES))
}

/// What a word of `--mode` asks for.
fn make_of(word: &str, sector: u32, lanes: u32) -> Option<Make>
    ensures { result ≡ make_of word.now sector lanes }
{
    if word == "raw" {
        return Some(Make::Raw);
    }
    if word == "sector" {
        return Some(Make::Sector { sector, lanes });
    }
    None
}

/// What a namespace is made as.
fn make_in(values: &Parsed<'_>) -> Option<Make>
    ensures { result ≡ make_in (rows values.now) }
{
    let sector = sector_in(values)?;
    let lanes = lanes_in(values)?;
    make_of(values.value("mode")?, sector as u32, lanes as u32)
}

/// The namespace that `create` makes, by its arguments `uuid`, `name`, `region`, `size`, `mode`, `sector` and `lanes`.
/// `None` if one of them isn't of its kind: a UUID in one of its forms of text, a region and a sector of 32 bits, a size
/// of 64 bits, 1 to 256 lanes, and `raw` or `sector`. Sector and lanes may be left out: then they are 512 and 256. With
/// `raw` they aren't used.
pub fn create_in(values: &Parsed<'_>) -> Option<CreateSpec>
    ensures spec { result ≡ create_in (rows values.now) }
    ensures name { IfSome result (λ spec. IsGoodName spec.name) }
{
    let uuid = values.uuid("uuid")?;
    let name = named(values.value("name")?);
    let region = values.number("region", 0, LAST)?;
    let size = values.number("size", 0, u64::MAX)?;
    let make = make_in(values)?;
    Some(CreateSpec {
        uuid,
        name,
        region: region as u32,
        size,
        make,
    })
}

/// The command `delete`, by its argument `uuid`. `None` if that is no UUID in one of its forms of text.
pub fn delete_in(values: &Parsed<'_>) -> Option<Command>
    ensures change { result ≡ delete_in (rows values.now) }
    ensures name { IfSome result HasGoodName }
{
    let uuid = values.uuid("uuid")?;
    Some(Command::Delete { uuid })
}

/// The command `rename`, by its arguments `uuid` and `name`. `None` if the first is no UUID in one of its forms of
/// text.
pub fn rename_in(values: &Parsed<'_>) -> Option<Command>
    ensures change { result ≡ rename_in (rows values.now) }
    ensures name { IfSome result HasGoodName }
{
    let uuid = values.uuid("uuid")?;
    let name = named(values.value("name")?);
    Some(Command::Rename { uuid, name })
}
