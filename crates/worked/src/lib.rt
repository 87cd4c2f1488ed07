// Examples worked out by hand from the protocol: facts about the definitions, and tests of the reader and of drafts.
#![tactic(auto)]

ghost use Rattle.worked.specs.Examples.{WorkedExamples};
ghost use Rattle.worked.specs.Steps.{StepExamples};

#[cfg(test)]
mod drafts;
#[cfg(test)]
mod payloads;

/// Proves that the definitions of the hub's steps, of the packets and of the image's places give what the examples say.
pub fn worked_examples_stand()
    ensures { WorkedExamples }
{}

/// Proves of the definitions of the steps what InitRequest, a value set again, a second answer and a withheld packet do.
pub fn step_examples_stand()
    ensures { StepExamples }
{}
