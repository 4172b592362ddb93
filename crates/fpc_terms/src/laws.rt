//! Laws over the grammar of terms, each the contract of a function with nothing to run.
ghost use Rattle.fpc_terms.specs.OneAnswer.{IsReadOnce, IsRefusedOnce, IsNotBoth, IsRefusedWithin};

/// The front of a source is read as one term, or it is refused in one way, and not both. A refusal
/// lies within the source, or at its end.
pub fn one_answer()
    ensures read { IsReadOnce }
    ensures refused { IsRefusedOnce }
    ensures both { IsNotBoth }
    ensures within { IsRefusedWithin }
{}
