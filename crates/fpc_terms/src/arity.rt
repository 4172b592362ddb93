//! How many arguments names have.
ghost use Rattle.std.specs.Prelude.{◌≡◌, ◌≤◌};
ghost use Rattle.std.specs.List.{All};
ghost use Rattle.fpc_terms.specs.Arity.{IsFewCell, HasFew};

use crate::cell::Cell;
use crate::term::TermBuf;

/// The cell has at most 255 arguments.
pub fn few_cell(cell: Cell)
    ensures { IsFewCell cell }
{
    match cell {
        Cell::App(_, _) => {}
        _ => {}
    }
}

/// Each of the cells has at most 255 arguments.
fn few_cells(cells: &[Cell])
    ensures { All IsFewCell cells.now }
{
    for cell in cells {
        few_cell(*cell);
    }
}

/// Each name of a term has at most 255 arguments. Time is linear in the term's size.
#[tactic(auto, using(crate::proofs::ArityFacts::few_of))]
pub fn few(term: &TermBuf)
    ensures { HasFew term.now }
{
    few_cells(term.cells());
}
