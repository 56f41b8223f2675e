// That each text has one report only.
ghost use Rattle.report.specs.Determined.{OneReport};

// For every text whatsoever, what the report's contract says holds of at most one report: nothing else can be answered.
pub fn reports_are_determined()
    ensures { OneReport }
{}
