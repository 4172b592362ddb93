//! What a step gives: the premises of the rule that it names, or why there are none.
ghost use Rattle.std.specs.Prelude.{◌≡◌, [], ◌∷◌, true, false, Some, IfOk, IfErr, OnOk, OnErr};
ghost use Rattle.lkf_rules.specs.Sequent.{up, down};
ghost use Rattle.lkf_rules.specs.Values.{levelled, Gives};

use crate::sequent::Sequent;
use fpc_base::outside;
use polarised_formulas::formula::Formula;
use polarised_formulas::list::Formulas;
use std::alloc::Global;

/// The premises of an instance of a rule, in order.
#[derive(Drop)]
pub enum Premises {
    None,
    One(Sequent),
    Two(Sequent, Sequent),
}

/// Why a step gives no premises.
#[derive(Clone, Copy, PartialEq, Eq, Debug)]
pub enum StepRefusal {
    /// The step names no instance of a rule at the sequent.
    DoesNotFit,
    /// There was no memory: the step fits, or it is a `cut` whose formula was not tested to its end.
    OutOfMemory,
}

impl From<outside::OutOfMemory> for StepRefusal {
    ghost use Rattle.std.specs.Prelude.{◌≡◌};
    ghost use Rattle.lkf_rules.specs.declared.rules.outcome.StepRefusal.TheVariants.{OutOfMemory};

    ghost from_gives = { λ _ e. e ≡ OutOfMemory };

    fn from(_e: outside::OutOfMemory) -> StepRefusal {
        StepRefusal::OutOfMemory
    }
}

/// A step fits only where this holds.
pub fn fits(holds: bool) -> Result<(), StepRefusal>
    ensures ok { OnOk result (holds ≡ true) }
    ensures err { OnErr result (holds ≡ false) }
    ensures unfit { IfErr result (λ e. e ≡ StepRefusal.DoesNotFit) }
{
    if holds {
        Ok(())
    } else {
        Err(StepRefusal::DoesNotFit)
    }
}

/// The sequent of the negative phase with a copy of the stored formulas.
fn up_sequent(
    level: u64,
    stored: &Formulas,
    work: Formulas,
) -> Result<Sequent, outside::OutOfMemory>
    ensures { IfOk result (λ c. levelled c ≡ (level, up stored.now work)) }
{
    Ok(Sequent::Up {
        level,
        stored: stored.copy()?,
        work,
    })
}

/// The sequent of the positive phase with a copy of the stored formulas.
fn down_sequent(
    level: u64,
    stored: &Formulas,
    focus: Formula,
) -> Result<Sequent, outside::OutOfMemory>
    ensures { IfOk result (λ c. levelled c ≡ (level, down stored.now focus)) }
{
    Ok(Sequent::Down {
        level,
        stored: stored.copy()?,
        focus,
    })
}

/// The list of a formula and copies of others behind it.
pub(crate) fn with_first(
    alloc: Global,
    first: Formula,
    rest: &[Formula],
) -> Result<Formulas, outside::OutOfMemory>
    ensures { IfOk result (λ l. l ≡ first ∷ rest.now) }
{
    let mut list = Formulas::new(alloc);
    list.push(first)?;
    list.extended(rest)
}

/// The list of two formulas and copies of others behind them.
pub(crate) fn with_both(
    alloc: Global,
    first: Formula,
    second: Formula,
    rest: &[Formula],
) -> Result<Formulas, outside::OutOfMemory>
    ensures { IfOk result (λ l. l ≡ first ∷ second ∷ rest.now) }
{
    let mut list = Formulas::new(alloc);
    list.push(first)?;
    list.push(second)?;
    list.extended(rest)
}

/// The list of one formula.
pub(crate) fn only(alloc: Global, f: Formula) -> Result<Formulas, outside::OutOfMemory>
    ensures { IfOk result (λ l. l ≡ f ∷ []) }
{
    let mut list = Formulas::new(alloc);
    list.push(f)?;
    Ok(list)
}

/// The answer of one premise in the negative phase.
pub(crate) fn one_up(level: u64, stored: &Formulas, work: Formulas) -> Result<Premises, StepRefusal>
    ensures { Gives result (Some ((level, up stored.now work) ∷ [])) }
{
    Ok(Premises::One(up_sequent(level, stored, work)?))
}

/// The answer of two premises in the negative phase.
pub(crate) fn two_up(
    level: u64,
    stored: &Formulas,
    first: Formulas,
    second: Formulas,
) -> Result<Premises, StepRefusal>
    ensures { Gives result (Some ((level, up stored.now first) ∷ (level, up stored.now second) ∷ [])) }
{
    let first = up_sequent(level, stored, first)?;
    let second = up_sequent(level, stored, second)?;
    Ok(Premises::Two(first, second))
}

/// The answer of one premise in the positive phase.
pub(crate) fn one_down(
    level: u64,
    stored: &Formulas,
    focus: Formula,
) -> Result<Premises, StepRefusal>
    ensures { Gives result (Some ((level, down stored.now focus) ∷ [])) }
{
    Ok(Premises::One(down_sequent(level, stored, focus)?))
}

/// The answer of two premises in the positive phase.
pub(crate) fn two_down(
    level: u64,
    stored: &Formulas,
    first: Formula,
    second: Formula,
) -> Result<Premises, StepRefusal>
    ensures { Gives result (Some ((level, down stored.now first) ∷ (level, down stored.now second) ∷ [])) }
{
    let first = down_sequent(level, stored, first)?;
    let second = down_sequent(level, stored, second)?;
    Ok(Premises::Two(first, second))
}
