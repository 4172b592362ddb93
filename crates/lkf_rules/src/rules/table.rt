//! The rules of LKF as a table: each step with what it asks of the formula that it works on, and what
//! it does. No answer holds a formula, so it is the same however a sequent holds its formulas.
ghost use Rattle.std.specs.Prelude.{◌≡◌, ℕ, List, [], ◌∷◌, ◌≤◌, true, Some, None, IfSome, IfNone, slice_get, length, if◌then◌else◌};
ghost use Rattle.fpc_terms.specs.Term.{Args};
ghost use Rattle.polarised_formulas.specs.Formula.{Formula, atom, root_node};
ghost use Rattle.lkf_rules.specs.Premises.{worked, focused, decided, closed_with};
ghost use Rattle.lkf_rules.specs.Rule.{is_storable};
ghost use Rattle.lkf_rules.specs.Sequent.{down};
ghost use Rattle.lkf_rules.specs.Table.{worked_by, focused_by, IsWorkable, IsFocusable, BringsNothing};

use fpc_terms::term::TermBuf;
use polarised_formulas::dual::dual_of_node;
use polarised_formulas::held::HeldFormula;
use polarised_formulas::logic::Polarity::{Negative, Positive};
use polarised_formulas::logic::Side;
use polarised_formulas::node::Node;
use polarised_formulas::shape::polarity_of_node;
use polarised_formulas::step::Step;

/// What a step does to the first worked formula. The stored formulas stay, and the worked ones
/// behind the first.
#[derive(Clone, Copy, PartialEq, Eq, Debug)]
pub enum WorkEffect {
    /// There is no premise.
    Close,
    /// The formula goes.
    Pass,
    /// Its parts are worked on, one after the other.
    Both,
    /// Each part is worked on in a premise of its own.
    Split,
    /// Its body is worked on at the next level, with the level's eigenvariable for the bound index.
    Raise,
    /// It goes to the end of the stored formulas.
    Store,
}

/// What a step does to the formula under focus. The stored formulas stay.
#[derive(Clone, Copy, PartialEq, Eq, Debug)]
pub enum FocusEffect {
    /// There is no premise.
    Close,
    /// Each part is under focus in a premise of its own.
    Split,
    /// This part is under focus.
    Side(Side),
    /// The formula is worked on.
    Release,
}

/// The rules of the negative phase, each with the step and the outermost node of the first worked
/// formula that it asks for. Constant time.
pub fn work_effect(step: &Step, node: Node) -> Option<WorkEffect>
    ensures effect { (n : ℕ) (s g : List Formula) (f : Formula) → node ≡ root_node f
        → worked step.now n s f g ≡ worked_by result n s f g }
    ensures shape { (f : Formula) → node ≡ root_node f → IfSome result (λ e. IsWorkable e f) }
{
    match (step, node) {
        (Step::TrueN, Node::True(Negative)) => Some(WorkEffect::Close),
        (Step::FalseN, Node::False(Negative)) => Some(WorkEffect::Pass),
        (Step::OrN, Node::Or(Negative)) => Some(WorkEffect::Both),
        (Step::AndN, Node::And(Negative)) => Some(WorkEffect::Split),
        // The eigenvariable is fresh: those of the sequent are below the level.
        (Step::Every, Node::ForAll) => Some(WorkEffect::Raise),
        (Step::Store, node) if may_store(node) => Some(WorkEffect::Store),
        _ => None,
    }
}

/// The rules of the positive phase but for `some` and `init`, each with the step and the outermost
/// node of the formula under focus that it asks for. Constant time.
pub fn focus_effect(step: &Step, node: Node) -> Option<FocusEffect>
    ensures effect { (n : ℕ) (s : List Formula) (f : Formula) → node ≡ root_node f
        → BringsNothing step.now → focused step.now n s f ≡ focused_by result n s f }
    ensures shape { (f : Formula) → node ≡ root_node f → IfSome result (λ e. IsFocusable e f) }
{
    match (step, node) {
        (Step::TrueP, Node::True(Positive)) => Some(FocusEffect::Close),
        (Step::AndP, Node::And(Positive)) => Some(FocusEffect::Split),
        (Step::OrP(side), Node::Or(Positive)) => Some(FocusEffect::Side(*side)),
        (Step::Release, node) if polarity_of_node(node) == Negative => Some(FocusEffect::Release),
        _ => None,
    }
}

/// The stored formula at a place, which counts from 0.
pub fn stored_at<F>(stored: &[F], k: u64) -> Option<&F>
    ensures some { IfSome result (λ f. slice_get stored.now k ≡ Some f.now) }
    ensures none { IfNone result (slice_get stored.now k ≡ None) }
{
    if k >= stored.len() as u64 {
        return None;
    }
    Some(&stored[k as usize])
}

/// Whether `decide` may put a stored formula with this outermost node under focus.
pub fn may_decide(node: Node) -> bool
    ensures { (n : ℕ) (s : List Formula) (f : Formula) → node ≡ root_node f
        → decided n s (Some f) ≡ (if result then Some ((n, down s f) ∷ []) else None) }
{
    polarity_of_node(node) == Positive
}

/// Whether `store` may store a formula with this outermost node: a positive formula or a negative
/// literal.
fn may_store(node: Node) -> bool
    ensures { (f : Formula) → node ≡ root_node f → result ≡ is_storable f }
{
    match node {
        Node::True(p) | Node::False(p) | Node::And(p) | Node::Or(p) => p == Positive,
        Node::Atom { .. } | Node::Exists => true,
        _ => false,
    }
}

/// Whether `init` closes with a formula under focus and a stored one: a positive literal and its
/// dual. It takes no memory. Time is linear in their arguments with the terms in them.
pub fn may_close<F: HeldFormula>(focus: &F, other: &F, terms: &[TermBuf]) -> bool
    requires focus { F.reach focus.now ≤ length terms.now }
    requires other { F.reach other.now ≤ length terms.now }
    ensures { closed_with (F.stands terms.now focus.now) (Some (F.stands terms.now other.now))
        ≡ (if result then Some [] else None) }
{
    match focus.shape() {
        Node::Atom { positive: true, .. } => are_dual(focus, other, terms),
        _ => false,
    }
}

/// Whether the second formula is the dual of the first one, which is a literal.
fn are_dual<F: HeldFormula>(literal: &F, other: &F, terms: &[TermBuf]) -> bool
    requires first { F.reach literal.now ≤ length terms.now }
    requires second { F.reach other.now ≤ length terms.now }
    ensures { (name : ℕ) (args : Args) → F.stands terms.now literal.now ≡ atom true name args
        → closed_with (atom true name args) (Some (F.stands terms.now other.now))
        ≡ (if result then Some [] else None) }
{
    dual_of_node(literal.shape()) == other.shape() && literal.has_arguments_of(other, terms)
}
