// The laws of reports.
ghost use Rattle.core_report.specs.Laws.{OneReport, OneReportFault, ReportOrFault};

/// The laws of reports: a certificate has one report at most, one scenario and house day at most stop it, and only
/// where there is no report.
pub fn report_law()
    ensures one { OneReport }
    ensures fault { OneReportFault }
    ensures apart { ReportOrFault }
{}
