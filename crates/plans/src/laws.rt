// What holds of every plan, and the lines that the rules mark.
ghost use Rattle.plans.specs.Planning.{PlansAgree};
ghost use Rattle.plans.specs.MarkedLines.{MarkedLines};

// A window has one plan and no other, range for range.
pub fn plans_agree()
    ensures { PlansAgree }
{}

// The eight keys and the four plans that the rules mark.
#[tactic(auto, using(crate::proofs::Marked::marked))]
pub fn marked_lines()
    ensures { MarkedLines }
{}
