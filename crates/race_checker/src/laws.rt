//! What the computed report is.

ghost use Rattle.race_checker.specs.Computed.{EachReportIsComputed};

/// The list that is computed, by object, body and site, is the report.
pub fn each_report_is_computed()
    ensures { EachReportIsComputed }
{}
