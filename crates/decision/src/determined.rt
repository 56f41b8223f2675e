// That each decision has one answer only.
ghost use Rattle.decision.specs.Determined.{OneWindow, OnePriority, OneSchedule};

// For every table and every bound, what the decisions' contracts say holds of at most one answer: nothing else can be
// answered.
pub fn answers_are_determined()
    ensures window { OneWindow }
    ensures priority { OnePriority }
    ensures schedule { OneSchedule }
{}
