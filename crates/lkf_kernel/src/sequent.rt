//! Sequents of LKF with indexes.
ghost use Rattle.std.specs.Prelude.{◌≡◌, ◌++◌, ◌∷◌, [], IfOk};
ghost use Rattle.fpc_terms.specs.Open.{at_one};
ghost use Rattle.fpc_terms.specs.Term.{variable};
ghost use Rattle.lkf_kernel.specs.Lkf.{put_sequent};
ghost use Rattle.lkf_kernel.specs.declared.sequent.Sequent.TheVariants.{Up, Down};

use fpc_base::outside::OutOfMemory;
use fpc_terms::term::TermBuf;
use polarised_formulas::formula::Formula;
use polarised_formulas::list::Formulas;
use polarised_formulas::substitution::{formula_with_term, formulas_with_term};
use search_model::lines::variable;
use search_model::stored::Store;
use std::alloc::Global;

/// A sequent of LKF. Its formulas and indexes may have variables.
#[derive(Drop)]
pub enum Sequent {
    /// The negative phase: the first of the worked formulas is taken next.
    Up { stored: Store, work: Formulas },
    /// The positive phase, with a formula under focus.
    Down { stored: Store, focus: Formula },
}

impl Sequent {
    /// A copy. Time and memory are linear in the sequent's size.
    pub fn copy(&self) -> Result<Sequent, OutOfMemory>
        ensures { IfOk result (λ q. q ≡ self.now) }
    {
        match self {
            Sequent::Up { stored, work } => Ok(Sequent::Up {
                stored: stored.copy()?,
                work: work.copy()?,
            }),
            Sequent::Down { stored, focus } => Ok(Sequent::Down {
                stored: stored.copy()?,
                focus: focus.copy()?,
            }),
        }
    }

    /// The sequent with a term for a variable, in its indexes too. Time and memory are linear in
    /// the size of what comes out.
    pub fn with_term(
        &self,
        alloc: Global,
        variable: u64,
        term: &TermBuf,
    ) -> Result<Sequent, OutOfMemory>
        ensures { IfOk result (λ q. q ≡ put_sequent (at_one variable term.now) self.now) }
    {
        match self {
            Sequent::Up { stored, work } => Ok(Sequent::Up {
                stored: stored.with_term(alloc, variable, term)?,
                work: formulas_with_term(alloc, work.items(), variable, term)?,
            }),
            Sequent::Down { stored, focus } => Ok(Sequent::Down {
                stored: stored.with_term(alloc, variable, term)?,
                focus: formula_with_term(alloc, focus, variable, term)?,
            }),
        }
    }
}

/// The sequent where these formulas are to be worked on, and then the others.
pub(crate) fn up(stored: &Store, front: Formulas, rest: &[Formula]) -> Result<Sequent, OutOfMemory>
    ensures { IfOk result (λ q. q ≡ Up stored.now (front ++ rest.now)) }
{
    Ok(Sequent::Up {
        stored: stored.copy()?,
        work: front.extended(rest)?,
    })
}

/// The sequent where a formula is to be worked on, and nothing else.
pub(crate) fn up_alone(
    alloc: Global,
    stored: &Store,
    formula: Formula,
) -> Result<Sequent, OutOfMemory>
    ensures { IfOk result (λ q. q ≡ Up stored.now (formula ∷ [])) }
{
    Ok(Sequent::Up {
        stored: stored.copy()?,
        work: just(alloc, formula)?,
    })
}

/// The sequent with a formula under focus.
pub(crate) fn down(stored: &Store, focus: Formula) -> Result<Sequent, OutOfMemory>
    ensures { IfOk result (λ q. q ≡ Down stored.now focus) }
{
    Ok(Sequent::Down {
        stored: stored.copy()?,
        focus,
    })
}

/// A list of one formula.
pub(crate) fn just(alloc: Global, formula: Formula) -> Result<Formulas, OutOfMemory>
    ensures { IfOk result (λ fs. fs ≡ formula ∷ []) }
{
    let mut list = Formulas::new(alloc);
    list.push(formula)?;
    Ok(list)
}

/// A list of two formulas.
pub(crate) fn pair(alloc: Global, first: Formula, second: Formula) -> Result<Formulas, OutOfMemory>
    ensures { IfOk result (λ fs. fs ≡ first ∷ second ∷ []) }
{
    let mut list = just(alloc, first)?;
    list.push(second)?;
    Ok(list)
}

/// The stored formulas and one more, under the index that is this variable.
pub(crate) fn storing(
    alloc: Global,
    stored: &Store,
    index: u64,
    formula: &Formula,
) -> Result<Store, OutOfMemory>
    ensures { IfOk result (λ st. st
        ≡ stored.now ++ record { index = variable index; formula = formula.now } ∷ []) }
{
    let mut more = stored.copy()?;
    more.push(variable(alloc, index)?, formula.copy()?)?;
    Ok(more)
}
