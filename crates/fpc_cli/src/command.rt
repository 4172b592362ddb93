//! The commands that the program's words ask for.
ghost use Rattle.std.specs.Prelude.{◌≡◌};
ghost use Rattle.fpc_cli.specs.Command.{asked_by, asked_of, short_asked, long_asked, guided_asked, long_guided_asked, guided, guided_by, wanted_said, verify_by, chosen_of, format_by, form_said, role_of, is_file_word, with_digit, with_digits, budget_said, is_definition_word, definition_said, IsSaid, solve_by};

use crate::answer::Role;
use crate::built_in::BuiltIn;
use crate::words::Words;

/// What a file that is to be printed is read as.
#[derive(Clone, Copy, PartialEq, Eq, Debug)]
pub enum Form {
    Problem,
    Definition,
    Certificate,
}

impl Form {
    /// The role of such a file.
    pub fn role(self) -> Role
        ensures { result ≡ role_of self }
    {
        match self {
            Form::Problem => Role::Problem,
            Form::Definition => Role::Definition,
            Form::Certificate => Role::Certificate,
        }
    }
}

/// Where a definition comes from.
#[derive(Clone, Copy, PartialEq, Eq, Debug)]
pub enum Origin<'a> {
    /// The file of this name.
    File(&'a str),
    /// The program, which has it built in.
    BuiltIn(BuiltIn),
}

/// What is wanted of a search for a derivation.
#[derive(Clone, Copy, PartialEq, Eq, Debug)]
pub enum Wanted {
    /// The verdict alone.
    Verdict,
    /// The explicit certificate.
    Explicit,
}

/// What the program is asked to do.
#[derive(Clone, Copy, PartialEq, Eq, Debug)]
pub enum Command<'a> {
    /// Verify the explicit certificate in one file against the problem in another.
    Verify {
        problem: &'a str,
        explicit: &'a str,
    },
    /// Check a problem by a definition and the certificate in a file, within a budget of units.
    Check {
        budget: u64,
        problem: &'a str,
        definition: Origin<'a>,
        certificate: &'a str,
    },
    /// Check a problem in the same way, and write the explicit certificate.
    Elaborate {
        budget: u64,
        problem: &'a str,
        definition: Origin<'a>,
        certificate: &'a str,
    },
    /// Print the printed form of a file.
    Format {
        form: Form,
        file: &'a str,
    },
    /// Search for an instance of an atom that holds by a definition, within a budget of units.
    Solve {
        budget: u64,
        definition: Origin<'a>,
        atom: &'a str,
    },
    /// Say that the words are no command.
    Usage,
}

/// The most units of a budget.
const MOST_BUDGET: u64 = 4_611_686_018_427_387_904;

/// The budget of a search without one of its own.
const USUAL_BUDGET: u64 = 10_000_000;

/// The command that the words are.
pub fn command_of(words: &Words) -> Command<'_>
    ensures { asked_of result ≡ asked_by words.now }
{
    match words.len() {
        3 => short_command(words.get(0), words.get(1), words.get(2)),
        4 => guided_command(words.get(0), words.get(1), words.get(2), words.get(3)),
        5 => long_command(
            words.get(0),
            words.get(1),
            words.get(2),
            words.get(3),
            words.get(4),
        ),
        6 => long_guided_command(
            words.get(0),
            words.get(1),
            words.get(2),
            words.get(3),
            words.get(4),
            words.get(5),
        ),
        _ => Command::Usage,
    }
}

/// The command of a name and two words after it.
fn short_command<'a>(name: &str, second: &'a str, third: &'a str) -> Command<'a>
    ensures { asked_of result ≡ short_asked name.now second.now third.now }
{
    if name == "verify" {
        verify_of(second, third)
    } else if name == "format" {
        format_of(second, third)
    } else if name == "solve" {
        solve_of(USUAL_BUDGET, second, third)
    } else {
        Command::Usage
    }
}

/// The command of a name and three words after it.
fn guided_command<'a>(
    name: &str,
    problem: &'a str,
    definition: &'a str,
    certificate: &'a str,
) -> Command<'a>
    ensures { asked_of result ≡ guided_asked name.now problem.now definition.now certificate.now }
{
    match wanted_said(name) {
        Some(wanted) => guided_of(wanted, USUAL_BUDGET, problem, definition, certificate),
        None => Command::Usage,
    }
}

/// What is wanted of a guided search, as the command's name says.
fn wanted_said(name: &str) -> Option<Wanted>
    ensures { result ≡ wanted_said name.now }
{
    if name == "check" {
        Some(Wanted::Verdict)
    } else if name == "elaborate" {
        Some(Wanted::Explicit)
    } else {
        None
    }
}

/// The command of a name, a flag with its budget, and two words after it.
fn long_command<'a>(
    name: &str,
    flag: &str,
    budget: &str,
    definition: &'a str,
    atom: &'a str,
) -> Command<'a>
    ensures { asked_of result ≡ long_asked name.now flag.now budget.now definition.now atom.now }
{
    if name != "solve" || flag != "--budget" {
        return Command::Usage;
    }
    match budget_said(budget) {
        Some(budget) => solve_of(budget, definition, atom),
        None => Command::Usage,
    }
}

/// The command of a name, a flag with its budget, and three words after it.
fn long_guided_command<'a>(
    name: &str,
    flag: &str,
    budget: &str,
    problem: &'a str,
    definition: &'a str,
    certificate: &'a str,
) -> Command<'a>
    ensures { asked_of result ≡ long_guided_asked name.now flag.now budget.now problem.now
        definition.now certificate.now }
{
    if flag != "--budget" {
        return Command::Usage;
    }
    match wanted_said(name) {
        Some(wanted) => match budget_said(budget) {
            Some(budget) => guided_of(wanted, budget, problem, definition, certificate),
            None => Command::Usage,
        },
        None => Command::Usage,
    }
}

/// The command of the words after `verify`.
fn verify_of<'a>(problem: &'a str, explicit: &'a str) -> Command<'a>
    ensures { asked_of result ≡ verify_by problem.now explicit.now }
{
    if is_file_word(problem) && is_file_word(explicit) {
        Command::Verify { problem, explicit }
    } else {
        Command::Usage
    }
}

/// The command of the words after `format`.
fn format_of<'a>(form: &str, file: &'a str) -> Command<'a>
    ensures { asked_of result ≡ format_by form.now file.now }
{
    if !is_file_word(file) {
        return Command::Usage;
    }
    match form_said(form) {
        Some(form) => Command::Format { form, file },
        None => Command::Usage,
    }
}

/// The form that a word says.
fn form_said(word: &str) -> Option<Form>
    ensures { result ≡ form_said word.now }
{
    if word == "problem" {
        Some(Form::Problem)
    } else if word == "definition" {
        Some(Form::Definition)
    } else if word == "certificate" {
        Some(Form::Certificate)
    } else {
        None
    }
}

/// The command of the words after `solve` and its budget.
fn solve_of<'a>(budget: u64, definition: &'a str, atom: &'a str) -> Command<'a>
    ensures { asked_of result ≡ solve_by budget definition.now atom.now }
{
    match definition_said(definition) {
        Some(definition) => Command::Solve {
            budget,
            definition,
            atom,
        },
        None => Command::Usage,
    }
}

/// The command of the words after `check` or `elaborate` and its budget.
fn guided_of<'a>(
    wanted: Wanted,
    budget: u64,
    problem: &'a str,
    definition: &'a str,
    certificate: &'a str,
) -> Command<'a>
    ensures { asked_of result ≡ guided_by wanted budget problem.now definition.now certificate.now }
{
    if !(is_file_word(problem) && is_file_word(certificate)) {
        return Command::Usage;
    }
    match definition_said(definition) {
        Some(definition) => guided(wanted, budget, problem, definition, certificate),
        None => Command::Usage,
    }
}

/// The guided search of which this is wanted.
fn guided<'a>(
    wanted: Wanted,
    budget: u64,
    problem: &'a str,
    definition: Origin<'a>,
    certificate: &'a str,
) -> Command<'a>
    ensures { asked_of result
        ≡ guided wanted budget problem.now (chosen_of definition.entry) certificate.now }
{
    match wanted {
        Wanted::Verdict => Command::Check {
            budget,
            problem,
            definition,
            certificate,
        },
        Wanted::Explicit => Command::Elaborate {
            budget,
            problem,
            definition,
            certificate,
        },
    }
}

/// The definition that a word chooses.
fn definition_said(word: &str) -> Option<Origin<'_>>
    ensures { IsSaid result (definition_said word.now) }
{
    if word == "builtin:cnf" {
        Some(Origin::BuiltIn(BuiltIn::Cnf))
    } else if is_definition_word(word) {
        Some(Origin::File(word))
    } else {
        None
    }
}

/// The budget that a word says: digits alone, the first one not 0, and at most the most units.
fn budget_said(word: &str) -> Option<u64>
    ensures { result ≡ budget_said word.now }
{
    match word.as_bytes() {
        [] => None,
        [b'0', ..] => None,
        digits => number_of(digits),
    }
}

/// The number that these bytes are the digits of, where it is at most the most units.
fn number_of(digits: &[u8]) -> Option<u64>
    ensures { result ≡ with_digits 0 digits.now }
{
    let mut number = 0;
    for byte in digits {
        match with_digit(number, *byte) {
            Some(longer) => number = longer,
            None => return None,
        }
    }
    Some(number)
}

/// A number with one more digit, where the byte is a digit and the number is at most the most
/// units.
fn with_digit(number: u64, byte: u8) -> Option<u64>
    ensures { result ≡ with_digit number byte }
{
    if byte < b'0' || byte > b'9' || number > MOST_BUDGET / 10 {
        return None;
    }
    let longer = 10 * number + (byte - b'0') as u64;
    if longer <= MOST_BUDGET {
        Some(longer)
    } else {
        None
    }
}

/// Whether a word can name a definition's file.
fn is_definition_word(word: &str) -> bool
    ensures { result ≡ is_definition_word word.now }
{
    is_file_word(word) && !word.as_bytes().starts_with(b"builtin:")
}

/// Whether a word can name a file.
fn is_file_word(word: &str) -> bool
    ensures { result ≡ is_file_word word.now }
{
    match word.as_bytes() {
        [] => false,
        [first, ..] => *first != b'-',
    }
}
