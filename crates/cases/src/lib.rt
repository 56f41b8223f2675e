// Worked cases of the literature and of the rules, checked against the definitions by one theorem.
#![tactic(auto)]

ghost use Rattle.cases.specs.Published.{ServerBounds, TwoRows, ThreeRows, ShortDeadline, SmallBudget, FullProcessor, OverFull, NoRows};

// The definitions that the decisions' contracts cite give, on these cases, the published figures.
pub fn published_cases_hold()
    ensures server_bounds { ServerBounds }
    ensures two_rows { TwoRows }
    ensures three_rows { ThreeRows }
    ensures short_deadline { ShortDeadline }
    ensures small_budget { SmallBudget }
    ensures full_processor { FullProcessor }
    ensures over_full { OverFull }
    ensures no_rows { NoRows }
{}
