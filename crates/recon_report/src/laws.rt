//! What holds of the bytes of every report. These functions do nothing: each promises a law.
ghost use Rattle.recon_report.specs.Laws as Spec;

/// A report reads back as its lines, field by field, by any reader of comma-separated values with
/// the usual settings.
pub fn report_reads_back()
    ensures { Spec.ReportReadsBack }
{}

/// A line whose fields hold no comma, no quote and no end of a line is these fields with commas
/// between them and a line feed after them.
pub fn plain_lines_are_joined()
    ensures { Spec.PlainLinesAreJoined }
{}
