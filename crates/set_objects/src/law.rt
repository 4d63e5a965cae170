ghost use Rattle.set_objects.specs.Laws.{FaultlessLoads, FirstIsAmongAll, LoadedIsFaultless, NoTableNoSet};

/// Laws: what the faults of a set's objects say about loading it. The function does nothing; its
/// `ensures` state the laws.
///
/// - `table`: a set whose table can't be read isn't loaded, for the same reason.
/// - `loads`, `faultless`: if the table is read, the set is loaded exactly if no object has a
///   fault.
/// - `among`: if the table is read and the set isn't loaded, the reason is among the faults.
pub fn faults_decide_loading()
    ensures table { NoTableNoSet }
    ensures loads { FaultlessLoads }
    ensures faultless { LoadedIsFaultless }
    ensures among { FirstIsAmongAll }
{}
