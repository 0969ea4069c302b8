//! Laws of the definitions: the functions that compute a run agree with the relations.
ghost use Rattle.machine_model.specs.Steps.{NextIsStep, RunIsSteps};

use formats::meanings;

/// A law: what a state comes to next is its step by the instruction table, or the stop at which it stands.
pub fn steps()
    ensures { NextIsStep }
{
    meanings();
}

/// A law: a run is that many steps, one after the other, up to its limit or to where the state stands.
pub fn runs()
    ensures { RunIsSteps }
{
    meanings();
}
