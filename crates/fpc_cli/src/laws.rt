//! Laws over the definition of the program's answers. The functions do nothing but cite
//! laws of the crates below: their contracts say the laws.
ghost use Rattle.fpc_cli.specs.Command.{BudgetIsDecimal};
ghost use Rattle.fpc_cli.specs.Laws.{AnswerIsDue, HasOneAnswer};

use elaborator::laws::one_outcome;
use explicit_kernel::laws::numbers;
use search_model::laws::one_solution;

/// The words and the contents of the files have one answer, but for want of memory and failed
/// calls.
pub fn one_answer()
    ensures { HasOneAnswer }
{
    numbers();
    one_solution();
    one_outcome();
}

/// The answer of a command is the one that the contents of its files call for, but for want of
/// memory and failed calls.
pub fn due_answers()
    ensures { AnswerIsDue }
{
    numbers();
    one_solution();
    one_outcome();
}

/// A word says a budget exactly where it has the decimal digits of a number from 1 to the most
/// units.
pub fn budgets()
    ensures { BudgetIsDecimal }
{}
