//! The arguments of literals, cell by cell, with the cells of terms in the place of references.
ghost use Rattle.std.specs.Prelude.{◌≡◌, ◌↔◌, ◌≤◌, ◌<◌, ◌++◌, ◌∷◌, [], List, IfSome, IsTrue, length};
ghost use Rattle.std.specs.Option.{IsNone};
ghost use Rattle.fpc_terms.specs.Term.{Term};
ghost use Rattle.fpc_terms.specs.declared.cell.Cell.{Cell as CellValue};
ghost use Rattle.polarised_formulas.specs.Formula.{nodes_of};
ghost use Rattle.polarised_formulas.specs.Held.{closure_reach};
ghost use Rattle.polarised_formulas.specs.ArgumentCells.{argument_nodes, given_piece, piece_of, piece_reach, piece_cells, filled_cells, cells_from};

use crate::closure::Closure;
use crate::held::Given;
use crate::node::Node;
use fpc_terms::cell::Cell;
use fpc_terms::term::TermBuf;

/// What a cell of a literal stands for.
#[derive(Clone, Copy, PartialEq, Eq, Debug)]
pub(crate) enum Piece {
    /// One cell.
    Own(Cell),
    /// The cells of the term at a place of a table.
    Term(usize),
}

/// A place among the cells that a closure's arguments stand for: before cells of a term, and nodes.
#[derive(Clone, Copy)]
struct Place<'a> {
    term: &'a [Cell],
    nodes: &'a [Node],
}

/// The nodes of a literal's arguments; none of another formula's nodes.
pub(crate) fn argument_nodes(nodes: &[Node]) -> &[Node]
    ensures { result.now ≡ argument_nodes nodes.now }
{
    match nodes.split_first() {
        Some((Node::Atom { .. }, later)) => later,
        _ => &[],
    }
}

/// Whether two lists of nodes are the same.
pub(crate) fn are_same_nodes(a: &[Node], b: &[Node]) -> bool
    ensures { IsTrue result ↔ (a.now ≡ b.now) }
{
    if a.len() != b.len() {
        return false;
    }
    for i in 0..a.len() {
        if a[i] != b[i] {
            return false;
        }
    }
    true
}

/// What a reference stands for.
fn given_piece(given: Given) -> Piece
    ensures { result ≡ given_piece given }
{
    match given {
        Given::Eigen(n) => Piece::Own(Cell::Eigen(n)),
        Given::Term(k) => Piece::Term(k),
    }
}

/// What a cell of the closure stands for.
fn piece_of(closure: &Closure<Given>, cell: Cell) -> Piece
    ensures value { result ≡ piece_of closure.now cell }
    ensures reach { piece_reach result ≤ closure_reach closure.now }
{
    match cell {
        Cell::Bound(k) => given_piece(closure.bound_or(k, Given::Eigen(0))),
        Cell::Var(k) => given_piece(closure.parameter_or(k, Given::Eigen(0))),
        Cell::Eigen(_) | Cell::App(_, _) => Piece::Own(cell),
    }
}

/// The nodes behind the first, where that one stands for the piece and no cell of a term comes
/// before it.
fn behind_same<'a>(place: Place<'a>, piece: Piece, closure: &Closure<Given>) -> Option<&'a [Node]>
    ensures { (ts : List Term) → IfSome result (λ later.
        cells_from ts closure.now place.entry.term.now place.entry.nodes.now ≡ piece_cells ts piece ++ filled_cells ts closure.now later.now) }
{
    if !place.term.is_empty() {
        return None;
    }
    match place.nodes.split_first() {
        Some((Node::Inside(cell), later)) if piece_of(closure, *cell) == piece => Some(later),
        _ => None,
    }
}

/// The first cell of a term, and the place behind it.
fn first_cell<'a>(cells: &'a [Cell], later: &'a [Node]) -> (Cell, Place<'a>)
    requires { 0 < length cells.now }
    ensures cells { cells.now ≡ result.0 ∷ result.1.term.now }
    ensures nodes { result.1.nodes.now ≡ later.now }
{
    let place = Place {
        term: &cells[1..],
        nodes: later,
    };
    (cells[0], place)
}

/// The first cell of a piece, and the place behind it.
fn first_of<'a>(piece: Piece, later: &'a [Node], terms: &'a [TermBuf]) -> (Cell, Place<'a>)
    requires { piece_reach piece ≤ length terms.now }
    ensures cells { piece_cells terms.now piece ≡ result.0 ∷ result.1.term.now }
    ensures nodes { result.1.nodes.now ≡ later.now }
{
    match piece {
        Piece::Own(cell) => (
            cell,
            Place {
                term: &[],
                nodes: later,
            },
        ),
        Piece::Term(k) => first_cell(terms[k].cells(), later),
    }
}

/// The cell at a place, and the place behind it.
fn next<'a>(
    place: Place<'a>,
    closure: &Closure<Given>,
    terms: &'a [TermBuf],
) -> Option<(Cell, Place<'a>)>
    requires { closure_reach closure.now ≤ length terms.now }
    ensures some { IfSome result (λ r.
        cells_from terms.now closure.now place.entry.term.now place.entry.nodes.now ≡ r.0 ∷ cells_from terms.now closure.now r.1.term.now r.1.nodes.now) }
    ensures none { IsNone result → cells_from terms.now closure.now place.entry.term.now place.entry.nodes.now ≡ [] }
{
    if let Some((cell, later)) = place.term.split_first() {
        let behind = Place {
            term: later,
            nodes: place.nodes,
        };
        return Some((*cell, behind));
    }
    match place.nodes.split_first() {
        Some((Node::Inside(cell), later)) => Some(first_of(piece_of(closure, *cell), later, terms)),
        _ => None,
    }
}

/// The place behind the cells, where the closure's cells begin with them.
fn behind_cells<'a>(
    place: Place<'a>,
    cells: &[Cell],
    closure: &Closure<Given>,
    terms: &'a [TermBuf],
) -> Option<Place<'a>>
    requires { closure_reach closure.now ≤ length terms.now }
    ensures some { IfSome result (λ r.
        cells_from terms.now closure.now place.entry.term.now place.entry.nodes.now ≡ cells.now ++ cells_from terms.now closure.now r.term.now r.nodes.now) }
    ensures none { IsNone result → (rest : List CellValue) → cells_from terms.now closure.now place.entry.term.now place.entry.nodes.now ≡ cells.now ++ rest → ⊥ }
{
    let mut place = place;
    for cell in cells {
        let Some((own, behind)) = next(place, closure, terms) else {
            return None;
        };
        if own != *cell {
            return None;
        }
        place = behind;
    }
    Some(place)
}

/// The place behind the cells of a piece, where the closure's cells begin with them. Constant time
/// where the same reference stands there.
fn behind_piece<'a>(
    place: Place<'a>,
    piece: Piece,
    closure: &Closure<Given>,
    terms: &'a [TermBuf],
) -> Option<Place<'a>>
    requires piece { piece_reach piece ≤ length terms.now }
    requires reach { closure_reach closure.now ≤ length terms.now }
    ensures some { IfSome result (λ r.
        cells_from terms.now closure.now place.entry.term.now place.entry.nodes.now ≡ piece_cells terms.now piece ++ cells_from terms.now closure.now r.term.now r.nodes.now) }
    ensures none { IsNone result → (rest : List CellValue) → cells_from terms.now closure.now place.entry.term.now place.entry.nodes.now ≡ piece_cells terms.now piece ++ rest → ⊥ }
{
    if let Some(later) = behind_same(place, piece, closure) {
        return Some(Place {
            term: &[],
            nodes: later,
        });
    }
    match &piece {
        Piece::Own(cell) => behind_cells(place, &[*cell], closure, terms),
        Piece::Term(k) => behind_cells(place, terms[*k].cells(), closure, terms),
    }
}

/// Whether no cell stands at a place.
fn is_end(place: Place<'_>, closure: &Closure<Given>, terms: &[TermBuf]) -> bool
    requires { closure_reach closure.now ≤ length terms.now }
    ensures { IsTrue result ↔ (cells_from terms.now closure.now place.entry.term.now place.entry.nodes.now ≡ []) }
{
    next(place, closure, terms).is_none()
}

/// Whether the arguments of two closures stand for the same cells.
pub(crate) fn are_same_cells(a: &Closure<Given>, b: &Closure<Given>, terms: &[TermBuf]) -> bool
    requires first { closure_reach a.now ≤ length terms.now }
    requires second { closure_reach b.now ≤ length terms.now }
    ensures { IsTrue result ↔ (filled_cells terms.now a.now (argument_nodes (nodes_of a.now.part)) ≡ filled_cells terms.now b.now (argument_nodes (nodes_of b.now.part))) }
{
    let mut place = Place {
        term: &[],
        nodes: argument_nodes(b.nodes()),
    };
    for node in argument_nodes(a.nodes()) {
        let Node::Inside(cell) = node else {
            return is_end(place, b, terms);
        };
        match behind_piece(place, piece_of(a, *cell), b, terms) {
            Some(behind) => place = behind,
            None => return false,
        }
    }
    is_end(place, b, terms)
}
