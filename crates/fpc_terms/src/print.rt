//! Terms as texts.
ghost use Rattle.std.specs.Prelude.{◌≡◌, ℕ, ◌<◌, ◌≤◌, ◌++◌, ◌∷◌, [], OnOk, OnErr, IfOk, MatchOption, length};
ghost use Rattle.std.specs.Fmt.{decimal};
ghost use Rattle.std.specs.List.{sum_by};
ghost use Rattle.fpc_terms.specs.Text.{term_text, name_in, plain_leaves, room_left};
ghost use Rattle.fpc_terms.specs.Printing.{HasNamesBelow, StartsWith, IsNamedBelow, AreNamedBelow, head_text, arguments_of, end_text, end_counts, behind_text, behind_counts, cells_text, signs_around, cell_length};

use crate::cell::Cell;
use crate::name::NameId;
use crate::names::Names;
use crate::term::TermBuf;
use fpc_base::outside::OutOfMemory;
use std::alloc::Global;
use std::marker::Model;

/// Puts the text of a term behind other bytes. On a refusal `out` is as before. Time and memory are linear in the text's size.
#[tactic(auto, using(crate::proofs::PrintFacts::print_facts))]
pub fn print_term(
    alloc: Global,
    names: &Names,
    term: &TermBuf,
    out: &mut Vec<u8>,
) -> Result<(), OutOfMemory>
    requires { HasNamesBelow (length names.now) term.now }
    ensures ok { OnOk result (out.new.items ≡ out.old.items ++ term_text names.now term.now) }
    ensures err { OnErr result (out.new.items ≡ out.old.items) }
{
    let start = out.len();
    let printed = push_cells(alloc, names, term.cells(), out);
    if printed.is_err() {
        out.truncate(start);
    }
    printed
}

/// Puts a mark with a decimal number behind other bytes. On a refusal `out` may have some of it.
#[tactic(auto, using(crate::proofs::PrintFacts::print_facts))]
pub fn push_number(
    alloc: Global,
    mark: u8,
    number: u64,
    out: &mut Vec<u8>,
) -> Result<(), OutOfMemory>
    ensures ok { OnOk result (out.new.items ≡ out.old.items ++ mark ∷ decimal number) }
    ensures front { StartsWith out.old.items out.new.items }
{
    let digits = format!(in alloc; "{number}")?;
    out.push(mark)?;
    out.extend_from_slice(digits.as_bytes())?;
    Ok(())
}

/// Puts a name behind other bytes, which stay at the front in any case.
#[tactic(auto, using(crate::proofs::PrintFacts::print_facts))]
pub fn push_name(names: &Names, name: NameId, out: &mut Vec<u8>) -> Result<(), OutOfMemory>
    requires { name < length names.now }
    ensures ok { OnOk result (out.new.items ≡ out.old.items ++ name_in names.now name) }
    ensures front { StartsWith out.old.items out.new.items }
{
    out.extend_from_slice(names.text(name))?;
    Ok(())
}

/// Puts the text of a term with these cells behind other bytes.
#[tactic(auto, using(crate::proofs::PrintFacts::print_facts))]
fn push_cells(
    alloc: Global,
    names: &Names,
    cells: &[Cell],
    out: &mut Vec<u8>,
) -> Result<(), OutOfMemory>
    requires { AreNamedBelow (length names.now) cells.now }
    ensures ok { OnOk result (out.new.items ≡ out.old.items ++ cells_text (plain_leaves (name_in names.now)) [] cells.now) }
    ensures front { StartsWith out.old.items out.new.items }
{
    let mut counts = Counts::new(alloc);
    for cell in cells {
        push_head(alloc, names, *cell, out)?;
        push_behind(arguments(*cell), out, &mut counts)?;
    }
    Ok(())
}

/// Puts a leaf, or a name without its arguments, behind other bytes.
#[tactic(auto, using(crate::proofs::PrintFacts::print_facts))]
fn push_head(alloc: Global, names: &Names, cell: Cell, out: &mut Vec<u8>) -> Result<(), OutOfMemory>
    requires { IsNamedBelow (length names.now) cell }
    ensures ok { OnOk result (out.new.items ≡ out.old.items ++ head_text (plain_leaves (name_in names.now)) cell) }
    ensures front { StartsWith out.old.items out.new.items }
{
    match cell {
        Cell::Eigen(n) => push_number(alloc, b'$', n, out),
        Cell::Bound(k) => push_number(alloc, b'#', k as u64, out),
        Cell::Var(v) => push_number(alloc, b'V', v, out),
        Cell::App(name, _) => push_name(names, name, out),
    }
}

/// How many arguments stand behind a cell; a leaf has none.
pub fn arguments(cell: Cell) -> u8
    ensures { result ≡ arguments_of cell }
{
    match cell {
        Cell::App(_, arguments) => arguments,
        _ => 0,
    }
}

/// Puts what stands behind a cell with so many arguments behind other bytes.
#[tactic(auto, using(crate::proofs::PrintFacts::print_facts))]
fn push_behind(arguments: u8, out: &mut Vec<u8>, counts: &mut Counts) -> Result<(), OutOfMemory>
    ensures ok { OnOk result (out.new.items ≡ out.old.items ++ behind_text arguments counts.old) }
    ensures front { StartsWith out.old.items out.new.items }
    ensures counts { OnOk result (counts.new ≡ behind_counts arguments counts.old) }
{
    if arguments == 0 {
        return push_end(out, counts);
    }
    out.push(b'(')?;
    counts.push(arguments - 1)
}

/// Puts what stands behind a term behind other bytes.
#[tactic(auto, using(crate::proofs::PrintFacts::print_facts))]
fn push_end(out: &mut Vec<u8>, counts: &mut Counts) -> Result<(), OutOfMemory>
    ensures ok { OnOk result (out.new.items ≡ out.old.items ++ end_text counts.old) }
    ensures front { StartsWith out.old.items out.new.items }
    ensures counts { OnOk result (counts.new ≡ end_counts counts.old) }
{
    while let Some(count) = counts.pop() {
        if count > 0 {
            out.push(b',')?;
            return counts.push(count - 1);
        }
        out.push(b')')?;
    }
    Ok(())
}

/// For each open parenthesis, the innermost first, how many arguments come behind the one at hand.
#[derive(Drop)]
struct Counts {
    items: Vec<u8>,
}

impl Model for Counts {
    ghost use Rattle.std.specs.Prelude.{ℕ, List, reverse};
    ghost use Rattle.std.specs.Coded.{coded_list, coded_ℕ};

    ghost Value = { List ℕ };

    ghost coded = { coded_list coded_ℕ };

    ghost view = { λ c. reverse c.items.items };
}

impl Counts {
    fn new(alloc: Global) -> Counts
        ensures { result ≡ [] }
    {
        Counts {
            items: Vec::new(alloc),
        }
    }

    fn push(&mut self, count: u8) -> Result<(), OutOfMemory>
        ensures { OnOk result (self.new ≡ count ∷ self.old) }
    {
        self.items.push(count)?;
        Ok(())
    }

    fn pop(&mut self) -> Option<u8>
        ensures { MatchOption result ((self.old ≡ []) × (self.new ≡ [])) (λ count. self.old ≡ count ∷ self.new) }
    {
        self.items.pop()
    }
}

/// The room that is left behind the text of a term, where the text fits. It takes no memory. Time is linear in the term's size.
#[tactic(auto, using(crate::proofs::PrintFacts::print_facts, crate::proofs::RoomFacts::room_facts))]
pub fn room_behind(names: &Names, term: &TermBuf, room: u64) -> Option<u64>
    requires { HasNamesBelow (length names.now) term.now }
    ensures { result ≡ room_left room (length (term_text names.now term.now)) }
{
    room_behind_cells(names, term.cells(), room)
}

/// The room that is left behind the text of a term with these cells, where the text fits.
#[tactic(auto, using(crate::proofs::RoomFacts::room_facts))]
fn room_behind_cells(names: &Names, cells: &[Cell], room: u64) -> Option<u64>
    requires { AreNamedBelow (length names.now) cells.now }
    ensures { result ≡ room_left room (sum_by (cell_length (plain_leaves (name_in names.now))) cells.now) }
{
    let mut left = room;
    for cell in cells {
        left = left.checked_sub(length_of_cell(names, *cell))?;
    }
    Some(left)
}

/// How many bytes a cell adds to the text.
#[tactic(auto, using(crate::proofs::RoomFacts::room_facts))]
fn length_of_cell(names: &Names, cell: Cell) -> u64
    requires { IsNamedBelow (length names.now) cell }
    ensures { result ≡ cell_length (plain_leaves (name_in names.now)) cell }
{
    match cell {
        Cell::Eigen(n) => 1 + count_digits(n),
        Cell::Bound(k) => 1 + count_digits(k as u64),
        Cell::Var(v) => 1 + count_digits(v),
        Cell::App(name, arguments) => length_of_name(names, name) + count_signs(arguments),
    }
}

/// How many bytes a name has.
fn length_of_name(names: &Names, name: NameId) -> u64
    requires { name < length names.now }
    ensures length { result ≡ length (name_in names.now name) }
    ensures few { result ≤ 255 }
{
    names.text(name).len() as u64
}

/// How many parentheses and commas so many arguments take.
fn count_signs(arguments: u8) -> u64
    ensures signs { result ≡ signs_around arguments }
    ensures few { result ≤ 256 }
{
    if arguments == 0 {
        return 0;
    }
    arguments as u64 + 1
}

/// How many digits a number has.
#[tactic(auto, using(crate::proofs::RoomFacts::room_facts))]
fn count_digits(number: u64) -> u64
    ensures digits { result ≡ length (decimal number) }
    ensures few { result ≤ 20 }
{
    let mut rest = number;
    let mut digits: u64 = 1;
    while rest >= 10 {
        rest /= 10;
        digits += 1;
    }
    digits
}
