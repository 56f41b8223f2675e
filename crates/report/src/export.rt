// The report as C calls it, where a number has to tell a refusal: `report_c` exports it.
ghost use Rattle.report.specs.Answers.{Exported};

use crate::answer::report;

// The bytes of the report, or 0 where `out` has under 425 bytes, which no report has.
pub fn timerdaisy_report(text: &[u8], out: &mut [u8]) -> usize
    ensures { Exported text.now out.old out.new result }
{
    report(text, out).unwrap_or(0)
}
