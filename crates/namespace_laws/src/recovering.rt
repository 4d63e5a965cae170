ghost use Rattle.namespace_laws.specs.Recovered.{CreateRecovers, DeleteRecovers, RenameRecovers};

/// A law: after a crash during a create, delete or rename that isn't refused, recovery leads to the
/// recovery of the map before the command, or of the map after it, with the areas' free slots. The
/// entry of a delete or rename may be pending.
pub fn cuts_recover_to_either()
    ensures create { CreateRecovers }
    ensures delete { DeleteRecovers }
    ensures rename { RenameRecovers }
{}
