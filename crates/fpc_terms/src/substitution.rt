//! Terms put for the variables of a term.
ghost use Rattle.std.specs.Prelude.{◌≡◌, ◌++◌, ◌∷◌, [], IfOk, OnOk, map};
ghost use Rattle.std.specs.List.{flat_map};
ghost use Rattle.fpc_terms.specs.Term.{put};
ghost use Rattle.fpc_terms.specs.Open.{at_one, later, constant};
ghost use Rattle.fpc_terms.specs.Substitution.{cell_put};

use crate::cell::Cell;
use crate::list::Terms;
use crate::name::NameId;
use crate::term::TermBuf;
use fpc_base::outside::OutOfMemory;
use std::alloc::Global;

/// The term with another for a variable. Time and memory are linear in the size of what comes out.
#[tactic(auto, using(crate::proofs::SubstitutionFacts::substitution_facts))]
pub fn with_term(
    alloc: Global,
    term: &TermBuf,
    variable: u64,
    by: &TermBuf,
) -> Result<TermBuf, OutOfMemory>
    ensures { IfOk result (λ t. t ≡ put (at_one variable by.now) term.now) }
{
    let cells = cells_with_term(alloc, term.cells(), variable, by)?;
    Ok(TermBuf::from_vec(cells))
}

/// The term with each variable's number later by `offset`. Time and memory are linear in the term's size.
#[tactic(auto, using(crate::proofs::SubstitutionFacts::substitution_facts))]
pub fn with_later_variables(
    alloc: Global,
    term: &TermBuf,
    offset: u64,
) -> Result<TermBuf, OutOfMemory>
    ensures { IfOk result (λ t. t ≡ put (later offset) term.now) }
{
    let cells = cells_with_later_variables(alloc, term.cells(), offset)?;
    Ok(TermBuf::from_vec(cells))
}

/// The term with a constant for each variable. Time and memory are linear in the term's size.
#[tactic(auto, using(crate::proofs::SubstitutionFacts::substitution_facts))]
pub fn with_constant(alloc: Global, term: &TermBuf, name: NameId) -> Result<TermBuf, OutOfMemory>
    ensures { IfOk result (λ t. t ≡ put (constant name) term.now) }
{
    let cells = cells_with_constant(alloc, term.cells(), name)?;
    Ok(TermBuf::from_vec(cells))
}

/// The terms with another for a variable.
pub fn all_with_term(
    alloc: Global,
    terms: &[TermBuf],
    variable: u64,
    by: &TermBuf,
) -> Result<Terms, OutOfMemory>
    ensures { IfOk result (λ ts. ts ≡ map (put (at_one variable by.now)) terms.now) }
{
    let mut found = Terms::new(alloc);
    for term in terms {
        found.push(with_term(alloc, term, variable, by)?)?;
    }
    Ok(found)
}

/// The terms with each variable's number later by `offset`.
pub fn all_with_later_variables(
    alloc: Global,
    terms: &[TermBuf],
    offset: u64,
) -> Result<Terms, OutOfMemory>
    ensures { IfOk result (λ ts. ts ≡ map (put (later offset)) terms.now) }
{
    let mut found = Terms::new(alloc);
    for term in terms {
        found.push(with_later_variables(alloc, term, offset)?)?;
    }
    Ok(found)
}

/// The terms with a constant for each variable.
pub fn all_with_constant(
    alloc: Global,
    terms: &[TermBuf],
    name: NameId,
) -> Result<Terms, OutOfMemory>
    ensures { IfOk result (λ ts. ts ≡ map (put (constant name)) terms.now) }
{
    let mut found = Terms::new(alloc);
    for term in terms {
        found.push(with_constant(alloc, term, name)?)?;
    }
    Ok(found)
}

fn cells_with_term(
    alloc: Global,
    cells: &[Cell],
    variable: u64,
    by: &TermBuf,
) -> Result<Vec<Cell>, OutOfMemory>
    ensures { IfOk result (λ new. new.items ≡ flat_map (cell_put (at_one variable by.now)) cells.now) }
{
    let mut new = Vec::new(alloc);
    for cell in cells {
        push_with_term(&mut new, *cell, variable, by)?;
    }
    Ok(new)
}

/// Puts a cell behind others, and for the variable the cells of a term.
fn push_with_term(
    cells: &mut Vec<Cell>,
    cell: Cell,
    variable: u64,
    by: &TermBuf,
) -> Result<(), OutOfMemory>
    ensures { OnOk result (cells.new.items ≡ cells.old.items ++ cell_put (at_one variable by.now) cell) }
{
    if let Cell::Var(number) = cell {
        if number == variable {
            cells.extend_from_slice(by.cells())?;
            return Ok(());
        }
    }
    cells.push(cell)?;
    Ok(())
}

fn cells_with_later_variables(
    alloc: Global,
    cells: &[Cell],
    offset: u64,
) -> Result<Vec<Cell>, OutOfMemory>
    ensures { IfOk result (λ new. new.items ≡ flat_map (cell_put (later offset)) cells.now) }
{
    let mut new = Vec::with_capacity(alloc, cells.len())?;
    for cell in cells {
        new.push(with_later_number(*cell, offset)?)?;
    }
    Ok(new)
}

/// The cell, with a number later by `offset` where it is a variable.
fn with_later_number(cell: Cell, offset: u64) -> Result<Cell, OutOfMemory>
    ensures { IfOk result (λ new. cell_put (later offset) cell ≡ new ∷ []) }
{
    match cell {
        Cell::Var(number) => match offset.checked_add(number) {
            Some(number) => Ok(Cell::Var(number)),
            // No table holds so many variables.
            None => Err(OutOfMemory),
        },
        Cell::Eigen(_) | Cell::Bound(_) | Cell::App(_, _) => Ok(cell),
    }
}

fn cells_with_constant(
    alloc: Global,
    cells: &[Cell],
    name: NameId,
) -> Result<Vec<Cell>, OutOfMemory>
    ensures { IfOk result (λ new. new.items ≡ flat_map (cell_put (constant name)) cells.now) }
{
    let mut new = Vec::with_capacity(alloc, cells.len())?;
    for cell in cells {
        new.push(constant_cell(*cell, name))?;
    }
    Ok(new)
}

/// The cell, or the constant where it is a variable.
fn constant_cell(cell: Cell, name: NameId) -> Cell
    ensures { cell_put (constant name) cell ≡ result ∷ [] }
{
    match cell {
        Cell::Var(_) => Cell::App(name, 0),
        Cell::Eigen(_) | Cell::Bound(_) | Cell::App(_, _) => cell,
    }
}
