//! Definitions and certificates as texts.
ghost use Rattle.std.specs.Prelude.{◌≡◌, ◌<◌, ◌+◌, ◌++◌, ◌∷◌, [], OnOk, OnErr, IfOk, length};
ghost use Rattle.fpc_terms.specs.Text.{name_in, plain_leaves, more_before, args_before, term_text, room_left};
ghost use Rattle.fpc_terms.specs.Printing.{HasNamesBelow, StartsWith};
ghost use Rattle.polarised_formulas.specs.Text.{logic_text};
ghost use Rattle.clause_language.specs.Text.{args_of, atom_before, more_atoms_before, body_before, clause_before, parameters_before, declaration_before, declared_before, clauses_before, file_before, definition_text, certificate_text};
ghost use Rattle.clause_language.specs.Naming.{AreTermsNamedBelow, IsAtomNamedBelow, AreAtomsNamedBelow, IsClauseNamedBelow, AreClausesNamedBelow, IsDeclarationNamedBelow, AreDeclaredNamedBelow, IsDefinitionNamedBelow, IsCertificateNamedBelow};

use crate::atom::Atom;
use crate::certificate::Certificate;
use crate::clause::Clause;
use crate::declaration::DeclaredFormula;
use crate::definition::Definition;
use fpc_base::outside::OutOfMemory;
use fpc_terms::names::Names;
use fpc_terms::print::{print_term, push_name, push_number, room_behind};
use fpc_terms::term::TermBuf;
use polarised_formulas::logic::Logic;
use polarised_formulas::print::push_named_formula;
use polarised_formulas::print::words::logic_word;
use std::alloc::Global;

/// The text of a definition: a line for the logic, and one for each declared formula and then for each clause. The variable k of a
/// clause is `V` with k; in a clause that was read, k counts the variables as they first come. Time and memory are linear in the text's size.
pub fn print_definition(
    alloc: Global,
    names: &Names,
    definition: &Definition,
) -> Result<Vec<u8>, OutOfMemory>
    requires { IsDefinitionNamedBelow (length names.now) definition.now }
    ensures { IfOk result (λ text. text.items ≡ definition_text names.now definition.now) }
{
    let declared = definition.declared.items();
    let clauses = definition.clauses.items();
    print_items(alloc, names, definition.logic, declared, clauses)
}

/// The text of a certificate: that of its logic, declared formulas and clauses, and a line for its term. Time and memory are
/// linear in the text's size.
pub fn print_certificate(
    alloc: Global,
    names: &Names,
    certificate: &Certificate,
) -> Result<Vec<u8>, OutOfMemory>
    requires { IsCertificateNamedBelow (length names.now) certificate.now }
    ensures { IfOk result (λ text. text.items ≡ certificate_text names.now certificate.now) }
{
    let declared = certificate.declared.items();
    let clauses = certificate.clauses.items();
    let mut out = print_items(alloc, names, certificate.logic, declared, clauses)?;
    out.extend_from_slice(b"certificate ")?;
    print_term(alloc, names, &certificate.term, &mut out)?;
    out.extend_from_slice(b".\n")?;
    Ok(out)
}

/// The text of a file up to the end of its clauses.
fn print_items(
    alloc: Global,
    names: &Names,
    logic: Logic,
    declared: &[DeclaredFormula],
    clauses: &[Clause],
) -> Result<Vec<u8>, OutOfMemory>
    requires declared { AreDeclaredNamedBelow (length names.now) declared.now }
    requires clauses { AreClausesNamedBelow (length names.now) clauses.now }
    ensures { IfOk result (λ text. text.items ≡ file_before names.now logic declared.now clauses.now []) }
{
    let mut out = Vec::new(alloc);
    push_logic(logic, &mut out)?;
    push_declared(alloc, names, logic, declared, &mut out)?;
    push_clauses(alloc, names, clauses, &mut out)?;
    Ok(out)
}

/// Puts the line of a logic behind other bytes.
fn push_logic(logic: Logic, out: &mut Vec<u8>) -> Result<(), OutOfMemory>
    ensures { OnOk result (out.new.items ≡ out.old.items ++ (logic_text logic ++ 10 ∷ [])) }
{
    out.extend_from_slice(logic_word(logic).as_bytes())?;
    Ok(out.push(b'\n')?)
}

/// Puts the lines of declared formulas behind other bytes.
fn push_declared(
    alloc: Global,
    names: &Names,
    logic: Logic,
    declared: &[DeclaredFormula],
    out: &mut Vec<u8>,
) -> Result<(), OutOfMemory>
    requires { AreDeclaredNamedBelow (length names.now) declared.now }
    ensures { OnOk result (out.new.items ≡ out.old.items ++ declared_before names.now logic declared.now []) }
{
    for one in declared {
        push_declaration(alloc, names, logic, one, out)?;
    }
    Ok(())
}

/// Puts the line of a declared formula behind other bytes.
fn push_declaration(
    alloc: Global,
    names: &Names,
    logic: Logic,
    declared: &DeclaredFormula,
    out: &mut Vec<u8>,
) -> Result<(), OutOfMemory>
    requires { IsDeclarationNamedBelow (length names.now) declared.now }
    ensures { OnOk result (out.new.items ≡ out.old.items ++ declaration_before names.now logic declared.now []) }
{
    out.extend_from_slice(b"formula ")?;
    push_name(names, declared.name, out)?;
    push_parameters(alloc, declared.parameters, out)?;
    out.extend_from_slice(b" := ")?;
    push_named_formula(alloc, names, logic, &declared.formula, out)?;
    Ok(out.extend_from_slice(b".\n")?)
}

/// Puts so many parameters behind other bytes, in parentheses where there are any.
fn push_parameters(alloc: Global, parameters: u8, out: &mut Vec<u8>) -> Result<(), OutOfMemory>
    ensures { OnOk result (out.new.items ≡ out.old.items ++ parameters_before parameters []) }
{
    if parameters == 0 {
        return Ok(());
    }
    out.push(b'(')?;
    push_number(alloc, b'P', 0, out)?;
    for k in 1..parameters {
        out.push(b',')?;
        push_number(alloc, b'P', k as u64, out)?;
    }
    Ok(out.push(b')')?)
}

/// Puts the lines of clauses behind other bytes.
fn push_clauses(
    alloc: Global,
    names: &Names,
    clauses: &[Clause],
    out: &mut Vec<u8>,
) -> Result<(), OutOfMemory>
    requires { AreClausesNamedBelow (length names.now) clauses.now }
    ensures { OnOk result (out.new.items ≡ out.old.items ++ clauses_before names.now clauses.now []) }
{
    for clause in clauses {
        push_clause(alloc, names, clause, out)?;
    }
    Ok(())
}

/// Puts the line of a clause behind other bytes.
fn push_clause(
    alloc: Global,
    names: &Names,
    clause: &Clause,
    out: &mut Vec<u8>,
) -> Result<(), OutOfMemory>
    requires { IsClauseNamedBelow (length names.now) clause.now }
    ensures { OnOk result (out.new.items ≡ out.old.items ++ clause_before names.now clause.now []) }
{
    print_atom(alloc, names, &clause.head, out)?;
    push_body(alloc, names, clause.body.items(), out)?;
    Ok(out.extend_from_slice(b".\n")?)
}

/// Puts the body of a clause behind other bytes, where it has one.
fn push_body(
    alloc: Global,
    names: &Names,
    body: &[Atom],
    out: &mut Vec<u8>,
) -> Result<(), OutOfMemory>
    requires { AreAtomsNamedBelow (length names.now) body.now }
    ensures { OnOk result (out.new.items ≡ out.old.items ++ body_before names.now body.now []) }
{
    match body.split_first() {
        None => Ok(()),
        Some((first, rest)) => {
            out.extend_from_slice(b" :- ")?;
            print_atom(alloc, names, first, out)?;
            push_more_atoms(alloc, names, rest, out)
        }
    }
}

/// Puts the atoms behind the first one behind other bytes.
fn push_more_atoms(
    alloc: Global,
    names: &Names,
    atoms: &[Atom],
    out: &mut Vec<u8>,
) -> Result<(), OutOfMemory>
    requires { AreAtomsNamedBelow (length names.now) atoms.now }
    ensures { OnOk result (out.new.items ≡ out.old.items ++ more_atoms_before names.now atoms.now []) }
{
    for atom in atoms {
        out.extend_from_slice(b", ")?;
        print_atom(alloc, names, atom, out)?;
    }
    Ok(())
}

/// Adds the text of an atom after other bytes. On a refusal `out` is as before. Time and memory are
/// linear in the text's size.
#[tactic(auto, using(crate::proofs::PrintFacts::kept_fronts))]
pub fn print_atom(
    alloc: Global,
    names: &Names,
    atom: &Atom,
    out: &mut Vec<u8>,
) -> Result<(), OutOfMemory>
    requires { IsAtomNamedBelow (length names.now) atom.now }
    ensures ok { OnOk result (out.new.items ≡ out.old.items ++ atom_before names.now atom.now []) }
    ensures err { OnErr result (out.new.items ≡ out.old.items) }
{
    let start = out.len();
    let printed = push_atom(alloc, names, atom, out);
    if printed.is_err() {
        out.truncate(start);
    }
    printed
}

/// Adds the text of an atom after other bytes, which stay at the front in any case.
#[tactic(auto, using(crate::proofs::PrintFacts::kept_fronts))]
fn push_atom(
    alloc: Global,
    names: &Names,
    atom: &Atom,
    out: &mut Vec<u8>,
) -> Result<(), OutOfMemory>
    requires { IsAtomNamedBelow (length names.now) atom.now }
    ensures ok { OnOk result (out.new.items ≡ out.old.items ++ atom_before names.now atom.now []) }
    ensures front { StartsWith out.old.items out.new.items }
{
    push_name(names, atom.name, out)?;
    push_arguments(alloc, names, atom.arguments.items(), out)
}

/// Adds arguments after other bytes, in parentheses where there are any.
#[tactic(auto, using(crate::proofs::PrintFacts::kept_fronts))]
fn push_arguments(
    alloc: Global,
    names: &Names,
    arguments: &[TermBuf],
    out: &mut Vec<u8>,
) -> Result<(), OutOfMemory>
    requires { AreTermsNamedBelow (length names.now) arguments.now }
    ensures ok { OnOk result (out.new.items ≡ out.old.items
        ++ args_before (plain_leaves (name_in names.now)) (args_of arguments.now) []) }
    ensures front { StartsWith out.old.items out.new.items }
{
    match arguments.split_first() {
        None => Ok(()),
        Some((first, rest)) => {
            out.push(b'(')?;
            print_term(alloc, names, first, out)?;
            push_more_arguments(alloc, names, rest, out)
        }
    }
}

/// Adds the arguments after the first one, and the parenthesis that closes them, after other bytes.
#[tactic(auto, using(crate::proofs::PrintFacts::kept_fronts))]
fn push_more_arguments(
    alloc: Global,
    names: &Names,
    arguments: &[TermBuf],
    out: &mut Vec<u8>,
) -> Result<(), OutOfMemory>
    requires { AreTermsNamedBelow (length names.now) arguments.now }
    ensures ok { OnOk result (out.new.items ≡ out.old.items
        ++ more_before (plain_leaves (name_in names.now)) (args_of arguments.now) []) }
    ensures front { StartsWith out.old.items out.new.items }
{
    for term in arguments {
        out.push(b',')?;
        print_term(alloc, names, term, out)?;
    }
    Ok(out.push(b')')?)
}

/// The room that is left behind the text of an atom, where the text fits. It takes no memory. Time is linear in the atom's size.
pub fn atom_room(names: &Names, atom: &Atom, room: u64) -> Option<u64>
    requires { IsAtomNamedBelow (length names.now) atom.now }
    ensures { result ≡ room_left room (length (atom_before names.now atom.now [])) }
{
    let left = room.checked_sub(names.text(atom.name).len() as u64)?;
    room_behind_arguments(names, atom.arguments.items(), left)
}

/// The room that is left behind arguments, in parentheses where there are any.
fn room_behind_arguments(names: &Names, arguments: &[TermBuf], room: u64) -> Option<u64>
    requires { AreTermsNamedBelow (length names.now) arguments.now }
    ensures { result ≡ room_left room (length (args_before (plain_leaves (name_in names.now)) (args_of arguments.now) [])) }
{
    if arguments.is_empty() {
        return Some(room);
    }
    let mut left = room;
    for term in arguments {
        left = room_behind_argument(names, term, left)?;
    }
    left.checked_sub(1)
}

/// The room that is left behind an argument and the parenthesis or comma before it.
fn room_behind_argument(names: &Names, term: &TermBuf, room: u64) -> Option<u64>
    requires { HasNamesBelow (length names.now) term.now }
    ensures { result ≡ room_left room (1 + length (term_text names.now term.now)) }
{
    room_behind(names, term, room.checked_sub(1)?)
}
