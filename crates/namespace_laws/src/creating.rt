ghost use Rattle.namespace_laws.specs.Laws.{CreateAloneIsCut, CreateIsCut};

/// A law: the entry after a crash during a create that isn't refused.
///
/// After any number of steps there is no entry of the UUID; or an unfinished one, of the same
/// region, mode and LbaSize, with some of the new parts; or the new entry, complete and pending; or
/// the new entry. If the region has one module, there is none or the new one.
pub fn create_is_cut()
    ensures left { CreateIsCut }
    ensures alone { CreateAloneIsCut }
{}
