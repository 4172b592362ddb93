//! The words of the languages of formulas.
ghost use Rattle.std.specs.Prelude.{◌≡◌};
ghost use Rattle.polarised_formulas.specs.Text.{mark_text, truth_text, falsity_text, conj_text, disj_text, logic_text};
ghost use Rattle.polarised_formulas.specs.Printing.{operator_text};

use crate::logic::{Logic, Polarity};
use crate::print::waiting::Operator;

/// The word of a logic.
pub fn logic_word(logic: Logic) -> &'static str
    ensures { result.now ≡ logic_text logic }
{
    match logic {
        Logic::Lkf => "lkf",
        Logic::Ljf => "ljf",
    }
}

/// What stands before the name of an atom.
pub(crate) fn mark(logic: Logic, positive: bool) -> &'static str
    ensures { result.now ≡ mark_text logic positive }
{
    match (logic, positive) {
        (Logic::Lkf, true) => "",
        (Logic::Lkf, false) => "~",
        (Logic::Ljf, true) => "+",
        (Logic::Ljf, false) => "-",
    }
}

/// The unit of conjunctions.
pub(crate) fn truth(polarity: Polarity) -> &'static str
    ensures { result.now ≡ truth_text polarity }
{
    match polarity {
        Polarity::Positive => "tt+",
        Polarity::Negative => "tt-",
    }
}

/// The unit of disjunctions; LJF has but one.
pub(crate) fn falsity(logic: Logic, polarity: Polarity) -> &'static str
    ensures { result.now ≡ falsity_text logic polarity }
{
    match (logic, polarity) {
        (Logic::Lkf, Polarity::Positive) => "ff+",
        (Logic::Lkf, Polarity::Negative) => "ff-",
        (Logic::Ljf, _) => "ff",
    }
}

/// An operator between two formulas; LJF has but one disjunction.
pub(crate) fn operator_sign(logic: Logic, operator: Operator) -> &'static str
    ensures { result.now ≡ operator_text logic operator }
{
    match operator {
        Operator::Conjunction(Polarity::Positive) => "&+",
        Operator::Conjunction(Polarity::Negative) => "&-",
        Operator::Disjunction(polarity) => disjunction_sign(logic, polarity),
        Operator::Implication => "=>",
    }
}

fn disjunction_sign(logic: Logic, polarity: Polarity) -> &'static str
    ensures { result.now ≡ disj_text logic polarity }
{
    match (logic, polarity) {
        (Logic::Lkf, Polarity::Positive) => "|+",
        (Logic::Lkf, Polarity::Negative) => "|-",
        (Logic::Ljf, _) => "|",
    }
}
