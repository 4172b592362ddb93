//! What a calculus gives the search: goals, goal lists and alternatives, over the calculus's
//! sequents.
ghost use Rattle.std.specs.Prelude.{◌≡◌, ◌<◌, ◌++◌, ◌∷◌, [], OnOk, OnErr, MatchOption, Some};
ghost use Rattle.std.specs.Prelude.{length, slice_get};
ghost use Rattle.fpc_terms.specs.Open.{level_of};
ghost use Rattle.search_model.specs.GoalItems.{goal_in, list_in, lists_in, no_goals};
ghost use Rattle.search_model.specs.Lines.{atom_of};
ghost use Rattle.search_model.specs.Search.{call, item};
ghost use Rattle.search_model.specs.Table.{derive};

use clause_language::atom::Atom;
use fpc_base::outside::OutOfMemory;
use fpc_terms::list::Terms;
use fpc_terms::name::NameId;
use fpc_terms::term::TermBuf;
use polarised_formulas::step::Step;
use std::alloc::Global;

/// A sequent is to be derived by a certificate, at a level.
#[derive(Drop)]
pub struct SequentGoal<S> {
    pub certificate: TermBuf,
    pub level: u64,
    pub sequent: S,
}

/// What is left to be shown. The sequent of the last three is the one in whose goal list they
/// stand.
#[derive(Drop)]
pub enum GoalItem<S> {
    /// A sequent is derived.
    Seq(SequentGoal<S>),
    /// An atom holds.
    Call(Atom),
    /// Two terms are equal.
    Eq(TermBuf, TermBuf),
    /// A step is emitted.
    Emit(Step),
    /// A place is chosen by its index, to decide on it.
    Pick {
        next: TermBuf,
        level: u64,
        index: TermBuf,
        sequent: S,
    },
    /// A place is chosen by its index, to close with it.
    InitPick {
        level: u64,
        index: TermBuf,
        sequent: S,
    },
    /// A formula is cut.
    Cut {
        left: TermBuf,
        right: TermBuf,
        level: u64,
        formula: TermBuf,
        sequent: S,
    },
}

/// A goal list, with the level of each of its new variables in the order of their numbers.
#[derive(Drop)]
pub struct Goals<S> {
    pub(crate) items: Vec<GoalItem<S>>,
    pub(crate) levels: Vec<Option<u64>>,
}

impl<S: Drop> Goals<S> {
    /// No goals and no variables.
    pub fn new(alloc: Global) -> Goals<S>
        ensures { list_in result ≡ no_goals }
    {
        Goals {
            items: Vec::new(alloc),
            levels: Vec::new(alloc),
        }
    }

    /// Adds a goal at the end.
    pub fn push(&mut self, goal: GoalItem<S>) -> Result<(), OutOfMemory>
        ensures ok { OnOk result (list_in self.new ≡ record (list_in self.old) {
          goals = (list_in self.old).goals ++ goal_in goal ∷ [];
        }) }
        ensures err { OnErr result (list_in self.new ≡ list_in self.old) }
    {
        self.items.push(goal)?;
        Ok(())
    }

    /// Adds the call of an atom at the end.
    pub fn call(&mut self, name: NameId, arguments: Terms) -> Result<(), OutOfMemory>
        ensures ok { OnOk result (list_in self.new ≡ record (list_in self.old) {
          goals = (list_in self.old).goals ++ call (atom_of name arguments) ∷ [];
        }) }
        ensures err { OnErr result (list_in self.new ≡ list_in self.old) }
    {
        self.push(GoalItem::Call(Atom { name, arguments }))
    }

    /// Adds a sequent that is to be derived by a certificate, at the end.
    pub fn derive(
        &mut self,
        certificate: TermBuf,
        level: u64,
        sequent: S,
    ) -> Result<(), OutOfMemory>
        ensures ok { OnOk result (list_in self.new ≡ record (list_in self.old) {
          goals = (list_in self.old).goals ++ item (derive certificate level sequent) ∷ [];
        }) }
        ensures err { OnErr result (list_in self.new ≡ list_in self.old) }
    {
        self.push(GoalItem::Seq(SequentGoal {
            certificate,
            level,
            sequent,
        }))
    }

    /// Adds a variable.
    pub fn new_var(&mut self, level: Option<u64>) -> Result<(), OutOfMemory>
        ensures ok { OnOk result (list_in self.new ≡ record (list_in self.old) {
          new = (list_in self.old).new ++ level ∷ [];
        }) }
        ensures err { OnErr result (list_in self.new ≡ list_in self.old) }
    {
        self.levels.push(level)?;
        Ok(())
    }

    /// How many goals there are.
    pub fn len(&self) -> usize
        ensures { result ≡ length (list_in self.now).goals }
    {
        self.items.len()
    }

    /// The goal at a place, counted from 0.
    pub fn get(&self, k: usize) -> &GoalItem<S>
        requires { k < length (list_in self.now).goals }
        ensures { slice_get (list_in self.now).goals k ≡ Some (goal_in result.now) }
    {
        &self.items[k]
    }

    /// How many new variables there are.
    pub fn new_vars(&self) -> u64
        ensures { result ≡ length (list_in self.now).new }
    {
        self.levels.len() as u64
    }

    /// The level of a new variable, counted from 0.
    pub fn level(&self, k: u64) -> Option<u64>
        requires { k < length (list_in self.now).new }
        ensures { result ≡ level_of (list_in self.now).new k }
    {
        self.levels[k as usize]
    }

    /// Takes the last goal off; none, where there is no goal.
    pub fn pop(&mut self) -> Option<GoalItem<S>>
        ensures goals { MatchOption result ((list_in self.old).goals ≡ [])
            (λ g. (list_in self.old).goals ≡ (list_in self.new).goals ++ goal_in g ∷ []) }
        ensures new_vars { (list_in self.new).new ≡ (list_in self.old).new }
        ensures none { MatchOption result (list_in self.new ≡ list_in self.old) (λ g. Unit {0}) }
    {
        self.items.pop()
    }
}

/// Goal lists.
#[derive(Drop)]
pub struct Alternatives<S> {
    pub(crate) lists: Vec<Goals<S>>,
}

impl<S: Drop> Alternatives<S> {
    /// No lists.
    pub fn new(alloc: Global) -> Alternatives<S>
        ensures { lists_in result ≡ [] }
    {
        Alternatives {
            lists: Vec::new(alloc),
        }
    }

    /// Adds a list at the end.
    pub fn push(&mut self, goals: Goals<S>) -> Result<(), OutOfMemory>
        ensures ok { OnOk result (lists_in self.new ≡ lists_in self.old ++ list_in goals ∷ []) }
        ensures err { OnErr result (lists_in self.new ≡ lists_in self.old) }
    {
        self.lists.push(goals)?;
        Ok(())
    }

    /// How many lists there are.
    pub fn len(&self) -> usize
        ensures { result ≡ length (lists_in self.now) }
    {
        self.lists.len()
    }

    /// The list at a place, counted from 0.
    pub fn get(&self, k: usize) -> &Goals<S>
        requires { k < length (lists_in self.now) }
        ensures { slice_get (lists_in self.now) k ≡ Some (list_in result.now) }
    {
        &self.lists[k]
    }

    /// Takes the last list off; none, where there is no list.
    pub fn pop(&mut self) -> Option<Goals<S>>
        ensures lists { MatchOption result (lists_in self.old ≡ [])
            (λ gs. lists_in self.old ≡ lists_in self.new ++ list_in gs ∷ []) }
        ensures none { MatchOption result (lists_in self.new ≡ lists_in self.old) (λ gs. Unit {0}) }
    {
        self.lists.pop()
    }
}
