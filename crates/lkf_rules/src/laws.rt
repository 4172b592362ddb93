//! Laws of LKF. The functions do nothing: their contracts say the laws.
ghost use Rattle.polarised_formulas.specs.Calculus.Lawful.{IsLawful};
ghost use Rattle.polarised_formulas.specs.Calculus.Laws.{PlayIsSpelling, PlayIsSound, HasOneNodeAStep, PlaysToOneList, SpellsOneTree, HasOneSpelling, KeepsScope, KeepsLogic, RootIsInScope};
ghost use Rattle.lkf_rules.specs.Lkf.{lkf};
ghost use Rattle.lkf_rules.specs.Laws.{KeepsUnderExchange, NamesInstances};

/// The premises that a step names at a sequent in scope are those of an instance of a rule. Scope
/// and logic are kept, and levels rise by at most one.
pub fn lawfulness()
    ensures { IsLawful lkf }
{}

/// Steps play a closed goal out exactly where they are the preorder of a certificate that spells a
/// derivation of the goal.
pub fn play()
    ensures { PlayIsSpelling lkf }
{}

/// A closed goal that some steps play out is derivable.
pub fn soundness()
    ensures { PlayIsSound lkf }
{}

/// A derivation has as many nodes as the steps that spell it.
pub fn one_node_a_step()
    ensures { HasOneNodeAStep lkf }
{}

/// What steps say is determined: a step plays a list of sequents to at most one list, a certificate
/// spells at most one derivation of a sequent at a level, and steps are the preorder of at most one
/// certificate that spells a derivation of a goal.
pub fn determinacy()
    ensures one_list { PlaysToOneList lkf }
    ensures one_tree { SpellsOneTree lkf }
    ensures one_spelling { HasOneSpelling lkf }
{}

/// The order of the stored formulas does not matter: with them in another order, a sequent that has
/// a derivation has one with as many nodes.
pub fn exchange()
    ensures { KeepsUnderExchange }
{}

/// The premises that a step names at a sequent in scope are exactly those of an instance of a rule
/// that it spells there. Scope and logic are kept from the root on.
pub fn instances()
    ensures instance { NamesInstances }
    ensures scope { KeepsScope lkf }
    ensures logic { KeepsLogic lkf }
    ensures root { RootIsInScope lkf }
{}
