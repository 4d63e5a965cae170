//! Names by their texts.
ghost use Rattle.std.specs.Prelude.{◌≡◌};
ghost use Rattle.namespace_map.specs.Commands.{named_of};
ghost use Rattle.namespace_ops.specs.Carried.{IsGoodName};

use label_codec::name_of;
use namespace_map::Named;

/// The name that a text makes, or the length of one that makes none.
pub fn named(text: &str) -> Named
    ensures named { result ≡ named_of text.now }
    ensures good { IsGoodName result }
{
    match name_of(text) {
        Some(name) => Named::Good(name),
        None => Named::Refused {
            bytes: text.len() as u64,
        },
    }
}
