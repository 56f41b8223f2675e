// The report for C: a slice crosses as a pointer and then a length.
#![tactic(auto)]

ghost use Rattle.report.specs.Answers.{Exported};

// The bytes of the report, or 0 where `out` has under 425 bytes, which no report has.
#[unsafe(no_mangle)]
pub extern "C" fn timerdaisy_report(text: &[u8], out: &mut [u8]) -> usize
    ensures { Exported text.now out.old out.new result }
{
    report::timerdaisy_report(text, out)
}
