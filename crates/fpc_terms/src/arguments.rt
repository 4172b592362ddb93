//! The head and the arguments of a term.
ghost use Rattle.std.specs.Prelude.{◌≡◌, ◌≤◌, IfOk, length};
ghost use Rattle.std.specs.List.{sum_by};
ghost use Rattle.fpc_terms.specs.Term.{arguments_in, head_of};
ghost use Rattle.fpc_terms.specs.Cells.{arity, front_length};

use crate::cell::Cell;
use crate::list::Terms;
use crate::name::NameId;
use crate::term::TermBuf;
use fpc_base::outside::OutOfMemory;
use std::alloc::Global;

/// The name of an application. Time is constant.
pub fn head(term: &TermBuf) -> Option<NameId>
    ensures { result ≡ head_of term.now }
{
    let cell = term.cells()[0];
    match cell {
        Cell::App(name, _) => Some(name),
        _ => None,
    }
}

/// How many terms stand behind a cell as its arguments.
fn arity_of_cell(cell: Cell) -> u64
    ensures { result ≡ arity cell }
{
    match cell {
        Cell::App(_, arguments) => arguments as u64,
        Cell::Eigen(_) | Cell::Bound(_) | Cell::Var(_) => 0,
    }
}

/// How many cells the first of the terms has. Time is linear in that number.
fn length_of_first(cells: &[Cell]) -> usize
    requires { sum_by arity cells.now ≤ length cells.now }
    ensures { result ≡ front_length 1 cells.now }
{
    let end = cells.len();
    let mut wanted: u64 = 1;
    for (i, cell) in cells.iter().enumerate() {
        if wanted == 0 {
            return i;
        }
        wanted = wanted - 1 + arity_of_cell(*cell);
    }
    end
}

/// The arguments of an application, in order, each as a term of its own; none where the term is no application. Time and memory are linear in the
/// term's size.
pub fn arguments(alloc: Global, term: &TermBuf) -> Result<Terms, OutOfMemory>
    ensures { IfOk result (λ ts. ts ≡ arguments_in term.now) }
{
    let mut found = Terms::new(alloc);
    let (_, behind) = term.cells().split_at(1);
    let mut rest = behind;
    while !rest.is_empty() {
        let (first, later) = rest.split_at(length_of_first(rest));
        found.push(TermBuf::from_cells(alloc, first)?)?;
        rest = later;
    }
    Ok(found)
}
