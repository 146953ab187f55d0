//! Laws of reports, each a function without parameters whose contract is the law.

ghost use Rattle.sched_report.specs.Laws.{BadRoundsLaw, BadRowsLaw, OneReportLaw, WasteLaw};
ghost use Rattle.sched_report.specs.RestRows.{RestRowsLaw};

/// The row of a round is bad exactly where some core is idle beside an overloaded one as the round opens.
pub fn law_bad_rows()
    ensures { BadRowsLaw }
{}

/// The row of a round of a whole history is bad exactly where the round is bad.
pub fn law_bad_rounds()
    ensures { BadRoundsLaw }
{}

/// A legal history has no two reports.
pub fn law_one_report()
    ensures { OneReportLaw }
{}

/// Of a policy that meets its obligations each failed steal has an explanation, and both kinds of report say the same.
/// A legal history has no two reports that tell its waste.
pub fn law_waste()
    ensures { WasteLaw }
{}

/// What the row of a stretch tells of rest is so of its history. The round told is the first of the stretch at whose
/// opening no core may steal from another, and the gap told is the least that no two loads differ by more than then.
/// Where nothing is told, some core may steal from another as each round of the stretch opens.
pub fn law_rest_rows()
    ensures { RestRowsLaw }
{}
