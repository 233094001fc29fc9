ghost use Rattle.dv_formats.specs.Laws.{SnapshotIsOne};
ghost use Rattle.dv_formats.specs.SnapshotFaults.{FaultIsOne, FaultOrSnapshot, SnapshotHasNoFault};

/// Bytes are the text of one snapshot, or they have one fault: never both, never neither. So what
/// is written is read back as it was.
pub fn one_outcome()
    ensures snapshot { SnapshotIsOne }
    ensures fault { FaultIsOne }
    ensures apart { SnapshotHasNoFault }
    ensures either { FaultOrSnapshot }
{}
