ghost use Rattle.std.specs.Prelude.{◌≡◌};
ghost use Rattle.uuid.specs.Text.{parsed};

use uuid::Uuid;

/// Returns the UUID that a word denotes, in one of the four text forms that `uuid` reads: 32
/// hexadecimal digits, with hyphens, in braces, or after `urn:uuid:`; in either case. It returns
/// `None` for other words.
pub fn uuid_from(word: &str) -> Option<Uuid>
    ensures { result ≡ parsed word.now }
{
    match Uuid::parse_str(word) {
        Ok(uuid) => Some(uuid),
        Err(_) => None,
    }
}
