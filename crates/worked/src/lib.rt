//! The worked examples of the rules, as one theorem about the definitions that the contracts cite.
#![tactic(auto)]

ghost use Rattle.worked.specs.Examples.{WorkedExamples};

/// The worked examples hold. This call states it; it computes nothing.
pub fn worked_examples()
    ensures { WorkedExamples }
{}
