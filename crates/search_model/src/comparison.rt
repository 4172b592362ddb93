//! What the equality of two terms comes to.
ghost use Rattle.std.specs.Prelude.{◌≡◌};
ghost use Rattle.fpc_terms.specs.Equality.{equality, equality_of_variables, only_if, parts, same};
ghost use Rattle.fpc_terms.specs.Term.{Term, variable};
ghost use Rattle.search_model.specs.States.{args_in, equality_meant, first_cell};

use fpc_terms::cell::Cell;
use fpc_terms::term::TermBuf;

/// What the equality of two terms comes to, by their first cells.
#[derive(Clone, Copy, Debug)]
pub enum Comparison {
    /// Nothing is left.
    Same,
    /// The equalities of their arguments.
    Parts,
    /// The younger of two variables becomes the older.
    Older { young: u64, old: u64 },
    /// This variable is the left term, and becomes the right one once that was walked.
    Left(u64),
    /// This variable is the right term, and becomes the left one once that was walked.
    Right(u64),
    /// They can't be equal.
    Clash,
}

/// Compares two variables.
fn compare_variables(left: u64, right: u64) -> Comparison
    ensures { (t u : Term) → equality_meant result t u ≡ equality_of_variables left right }
{
    if left == right {
        return Comparison::Same;
    }
    if left < right {
        return Comparison::Older {
            young: right,
            old: left,
        };
    }
    Comparison::Older {
        young: left,
        old: right,
    }
}

/// Nothing is left under a condition; else it is a clash.
fn same_if(alike: bool) -> Comparison
    ensures { (t u : Term) → equality_meant result t u ≡ only_if alike same }
{
    if alike {
        return Comparison::Same;
    }
    Comparison::Clash
}

/// Compares a variable with the first cell of another term.
fn compare_with(left: u64, right: Cell) -> Comparison
    ensures { (t u : Term) → t ≡ variable left → first_cell u ≡ right
        → equality_meant result t u ≡ equality t u }
{
    match right {
        Cell::Var(right) => compare_variables(left, right),
        _ => Comparison::Left(left),
    }
}

/// Compares two applications by their names and numbers of arguments.
fn compare_applications(alike: bool) -> Comparison
    ensures { (t u : Term) → equality_meant result t u
        ≡ only_if alike (parts (args_in t) (args_in u)) }
{
    if alike {
        return Comparison::Parts;
    }
    Comparison::Clash
}

/// Compares the first cells of two terms.
fn compare_cells(left: Cell, right: Cell) -> Comparison
    ensures { (t u : Term) → first_cell t ≡ left → first_cell u ≡ right
        → equality_meant result t u ≡ equality t u }
{
    match left {
        Cell::Var(number) => compare_with(number, right),
        Cell::Eigen(number) => match right {
            Cell::Var(variable) => Comparison::Right(variable),
            Cell::Eigen(other) => same_if(number == other),
            _ => Comparison::Clash,
        },
        Cell::Bound(index) => match right {
            Cell::Var(variable) => Comparison::Right(variable),
            Cell::Bound(other) => same_if(index == other),
            _ => Comparison::Clash,
        },
        Cell::App(name, count) => match right {
            Cell::Var(variable) => Comparison::Right(variable),
            Cell::App(other, as_many) => compare_applications(name == other && count == as_many),
            _ => Comparison::Clash,
        },
    }
}

/// Compares two terms. Constant time.
pub(crate) fn compare(left: &TermBuf, right: &TermBuf) -> Comparison
    ensures { equality_meant result left.now right.now ≡ equality left.now right.now }
{
    compare_cells(left.cells()[0], right.cells()[0])
}
