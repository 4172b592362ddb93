//! The program's answers, their lines and their exit statuses.
ghost use Rattle.std.specs.Prelude.{◌≡◌, Some, IfOk};
ghost use Rattle.fpc_cli.specs.Answer.{answer_text, role_name, status_of};

use crate::status::Status;
use crate::text::Text;
use fpc_base::{OutOfMemory, Refusal};
use std::alloc::Global;
use std::fmt;

/// What a file is read as.
#[derive(Clone, Copy, PartialEq, Eq, Debug)]
pub enum Role {
    Problem,
    Definition,
    Certificate,
    Explicit,
    Atom,
    Native,
}

impl fmt::Display for Role {
    ghost output = { λ role. Some (role_name role) };

    fn fmt<W: fmt::Write>(&self, f: &mut fmt::Formatter<W>) -> fmt::Result {
        f.write_str(match self {
            Role::Problem => "problem",
            Role::Definition => "definition",
            Role::Certificate => "certificate",
            Role::Explicit => "explicit",
            Role::Atom => "atom",
            Role::Native => "native",
        })
    }
}

/// What the program answers.
#[derive(Drop)]
pub enum Answer {
    /// The goal has a derivation of so many steps, which the certificate gives or guides.
    Accepted { steps: u64 },
    /// The certificate is wrong at the step of that number.
    Rejected { at: u64 },
    /// The printed form of a file, or an explicit certificate.
    Formatted { text: Text },
    /// An instance of the atom holds; this is its text.
    Holds { atom: Text },
    /// No instance of the atom holds, or the certificate guides no derivation of the goal.
    NotProved,
    /// The search took all units of its budget before its end.
    BudgetSpent,
    /// An instance of the atom holds, or the goal is accepted, and the text is too long.
    TooLong,
    /// A file or an atom was refused.
    Refused { role: Role, refusal: Refusal },
    /// The program's words are no command.
    Usage,
    /// A file is missing, or an opening or a read failed.
    ReadFault,
    /// There was no memory to find the answer.
    OutOfMemory,
}

/// The line of `Answer::OutOfMemory`, which is at hand without memory.
pub const WANT_OF_MEMORY: &[u8] = b"want of memory\n";

/// The exit status of an answer.
pub fn status(answer: &Answer) -> Status
    ensures { result.code ≡ status_of answer.now }
{
    let code = match answer {
        Answer::Accepted { .. } => 0,
        Answer::Rejected { .. } => 1,
        Answer::Formatted { .. } => 0,
        Answer::Holds { .. } => 0,
        Answer::NotProved => 1,
        Answer::BudgetSpent => 2,
        Answer::TooLong => 7,
        Answer::Refused { .. } => 3,
        Answer::Usage => 4,
        Answer::ReadFault => 5,
        Answer::OutOfMemory => 8,
    };
    Status { code }
}

/// The text of an answer. A printed form is given as it is, in constant time.
pub fn text_of(alloc: Global, answer: Answer) -> Result<Vec<u8>, OutOfMemory>
    ensures { IfOk result (λ text. text.items ≡ answer_text answer) }
{
    match answer {
        Answer::Accepted { steps } => accepted_text(alloc, steps),
        Answer::Rejected { at } => Ok(format!(in alloc; "rejected at step {at}\n")?.into_bytes()),
        Answer::Formatted { text } => Ok(text.into_bytes()),
        Answer::Holds { atom } => holds_text(alloc, atom),
        Answer::NotProved => Ok(Vec::from_slice(alloc, b"rejected\n")?),
        Answer::BudgetSpent => Ok(Vec::from_slice(alloc, b"budget spent\n")?),
        Answer::TooLong => Ok(Vec::from_slice(alloc, b"too long\n")?),
        Answer::Refused { role, refusal } => refused_text(alloc, role, refusal),
        Answer::Usage => Ok(Vec::from_slice(alloc, b"usage\n")?),
        Answer::ReadFault => Ok(Vec::from_slice(alloc, b"read fault\n")?),
        Answer::OutOfMemory => Ok(Vec::from_slice(alloc, WANT_OF_MEMORY)?),
    }
}

/// The line that says that a certificate is accepted.
fn accepted_text(alloc: Global, steps: u64) -> Result<Vec<u8>, OutOfMemory>
    ensures { IfOk result (λ text. text.items ≡ answer_text (Answer.Accepted steps)) }
{
    Ok(format!(in alloc; "accepted, {steps} steps\n")?.into_bytes())
}

/// The lines that say that an atom holds. Time is linear in the atom's text.
fn holds_text(alloc: Global, atom: Text) -> Result<Vec<u8>, OutOfMemory>
    ensures { IfOk result (λ text. text.items ≡ answer_text (Answer.Holds atom)) }
{
    let mut text = Vec::from_slice(alloc, b"accepted\n")?;
    text.extend_from_slice(atom.into_bytes().as_slice())?;
    text.push(b'\n')?;
    Ok(text)
}

/// The line that says why a file or an atom was refused.
fn refused_text(alloc: Global, role: Role, refusal: Refusal) -> Result<Vec<u8>, OutOfMemory>
    ensures { IfOk result (λ text. text.items ≡ answer_text (Answer.Refused role refusal)) }
{
    let code = refusal.code;
    let number = code.number();
    let at = refusal.at;
    Ok(format!(in alloc; "refused {role} {number} {code} at {at}\n")?.into_bytes())
}
