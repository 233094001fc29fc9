ghost use Rattle.dv_portion.specs.Portions.{OtherRowsStay, PortionIsValid, RecordsOnPortions};

/// A row is changed by itself alone: records make of some of the rows what they make of them among
/// all, and leave those that they don't name as they are.
pub fn records_act_on_portions()
    ensures portion { RecordsOnPortions }
    ensures rest { OtherRowsStay }
    ensures valid { PortionIsValid }
{}
