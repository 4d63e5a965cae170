//! Laws about the definitions of this crate: functions that do nothing; what they ensure is the law.
ghost use Rattle.namespace_ops.specs.Steps.{CutsPassTheFuse, JournalsSpendTheirSteps};

/// A law on calls under one fuse: until power is cut, the fuse is less by the sum of the journal's steps.
pub fn journals_spend_their_steps()
    ensures { JournalsSpendTheirSteps }
{}

/// A law on calls under one fuse: the first `PowerCut` stands at the entry with whose steps the sum passes the fuse.
pub fn cuts_pass_the_fuse()
    ensures { CutsPassTheFuse }
{}
