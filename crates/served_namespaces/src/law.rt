ghost use Rattle.served_namespaces.specs.Laws.{ClaimableIsFound};

/// A law: a namespace that may be claimed is found. So whoever opens it finds its arenas.
#[tactic(auto, using(crate::proofs::Claimable::claimable_is_found))]
pub fn claimable_is_found()
    ensures { ClaimableIsFound }
{}
