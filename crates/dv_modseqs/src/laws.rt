ghost use Rattle.dv_modseqs.specs.Laws.{RowsStayOrRise};
ghost use Rattle.dv_validity.specs.Laws.{NoneReturnsInTurn, RecordsNeverFall};

/// Whatever records are applied: a row is as before with its modification sequence, or has one
/// above the highest before, or the highest stands at its end; and no UID that was given out comes
/// back. So a client that knows the highest of an earlier time hears of each row that differs (RFC
/// 7162, section 3.1).
pub fn rows_stay_or_rise()
    ensures rows { RowsStayOrRise }
    ensures numbers { RecordsNeverFall }
    ensures uids { NoneReturnsInTurn }
{}
