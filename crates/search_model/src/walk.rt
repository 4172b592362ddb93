//! The walk through a term before a variable becomes it.
ghost use Rattle.std.specs.Prelude.{◌≡◌, ◌≤◌};
ghost use Rattle.search_model.specs.States.{is_clash, walk_through};

use fpc_terms::cell::Cell;

/// How a walk ends.
#[derive(Clone, Copy, PartialEq, Eq, Debug)]
pub enum Walked {
    /// Each node was passed.
    Passed,
    /// A node is the variable itself, or an eigenvariable that is out of its scope.
    Clashed,
    /// All units were taken before the walk was at its end.
    OutOfUnits,
}

/// Whether the walk for a variable of a level clashes at a cell.
fn is_clash(variable: u64, level: Option<u64>, cell: Cell) -> bool
    ensures { result ≡ is_clash variable level cell }
{
    match cell {
        Cell::Eigen(number) => match level {
            None => false,
            Some(level) => level <= number,
        },
        Cell::Bound(_) => level.is_some(),
        Cell::Var(number) => number == variable,
        Cell::App(_, _) => false,
    }
}

/// Walks through the cells of a term for a variable, at one unit before each.
pub(crate) fn walk_through(
    cells: &[Cell],
    variable: u64,
    level: Option<u64>,
    units: &mut u64,
) -> Walked
    ensures ends { result ≡ (walk_through variable level cells.now units.old).0 }
    ensures left { units.new ≡ (walk_through variable level cells.now units.old).1 }
{
    for cell in cells {
        if *units == 0 {
            return Walked::OutOfUnits;
        }
        *units -= 1;
        if is_clash(variable, level, *cell) {
            return Walked::Clashed;
        }
    }
    Walked::Passed
}
