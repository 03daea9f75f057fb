// A law of the report, for contracts.
ghost use Rattle.fmeda_report.specs.Rows.{RowsReportTruly};

/// Where each row has the planes that its batch truly has, the report of the rows is that of one thread that takes the
/// faults in order, in whatever order the rows stand. It computes nothing.
pub fn rows_report_truly()
    ensures { RowsReportTruly }
{}
