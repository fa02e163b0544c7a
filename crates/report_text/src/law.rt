// Laws of the definitions.
ghost use Rattle.report_text.specs.Laws.{ReportIsShown, EndIsMinimal, CycleIsFound, CertifiedIsShort, DescentReportIsOne};

/// The flips of a report are legal in order from the places of the complex that was given, and lead to
/// the end of the report. Told in the labels of the complex, they are a certificate of it where this end
/// is the boundary of a simplex. There are at most 2,520,000 of them, and they keep the limits of the
/// text of a certificate.
pub fn report_is_shown()
    ensures shown { ReportIsShown }
    ensures minimal { EndIsMinimal }
{}

/// The text of a complex and of a certificate of so many flips behind it has at most 268,435,456 bytes.
pub fn certificate_is_short()
    ensures { CertifiedIsShort }
{}

/// Closed and strongly connected complexes of dimension 1 are decided by each search.
pub fn cycle_is_found()
    ensures { CycleIsFound }
{}

/// A search without rounds has one report.
pub fn descent_report_is_one()
    ensures { DescentReportIsOne }
{}
