//! All that the program does, over any files and any sink.
ghost use Rattle.std.specs.Prelude.{◌≡◌, ◌≤◌};
ghost use Rattle.fpc_cli.specs.Command.{asked_by};
ghost use Rattle.fpc_cli.specs.Headline.{Headline};
ghost use Rattle.fpc_cli.specs.Run.{IsCaused, IsAnswered, IsPut};

use crate::answer::{Answer, WANT_OF_MEMORY, status, text_of};
use crate::command::{Command, Wanted, command_of};
use crate::commands::format::formatted;
use crate::commands::guided::searched;
use crate::commands::solve::solved;
use crate::commands::verify::verified;
use crate::laws::due_answers;
use crate::status::Status;
use crate::words::Words;
use elaborator::laws::one_outcome;
use explicit_kernel::laws::{acceptance, numbers};
use fpc_base::outside::{Failed, Files, Sink};
use fpc_base::transfer::put;
use std::alloc::Global;

/// The answer to the words.
fn answer<F: Files>(alloc: Global, words: &Words, files: &mut F) -> Answer
    ensures caused { IsCaused (asked_by words.now) (F.outside files.old).content
        (F.outside files.old) (F.outside files.new) result }
    ensures never_falls { (F.outside files.old).faults ≤ (F.outside files.new).faults }
    ensures content { (F.outside files.new).content ≡ (F.outside files.old).content }
{
    match command_of(words) {
        Command::Verify { problem, explicit } => verified(alloc, problem, explicit, files),
        Command::Check {
            budget,
            problem,
            definition,
            certificate,
        } => searched(
            alloc,
            Wanted::Verdict,
            budget,
            problem,
            definition,
            certificate,
            files,
        ),
        Command::Elaborate {
            budget,
            problem,
            definition,
            certificate,
        } => searched(
            alloc,
            Wanted::Explicit,
            budget,
            problem,
            definition,
            certificate,
            files,
        ),
        Command::Format { form, file } => formatted(alloc, form, file, files),
        Command::Solve {
            budget,
            definition,
            atom,
        } => solved(alloc, budget, definition, atom, files),
        Command::Usage => Answer::Usage,
    }
}

/// Writes a text that was made, and gives the status.
fn write<S: Sink>(status: Status, text: &[u8], out: &mut S) -> Status
    ensures { IsPut status.code text.now result.code
        (S.output out.old).faults (S.output out.new).faults
        (S.output out.old).taken (S.output out.new).taken }
{
    match put(out, text) {
        Ok(()) => status,
        Err(Failed) => Status { code: 6 },
    }
}

/// Runs the program on its words: makes the whole output first, then writes it. The status is 0 for
/// accepted and for a printed form, 1 for rejected, 2 for a budget that is spent, 3 for a refused
/// file or atom, 4 for words that are no command, 5 for a read fault, 6 for a write fault, 7 for an
/// explicit certificate or an atom whose text is too long, 8 for want of memory.
pub fn run<F: Files, S: Sink>(alloc: Global, words: &Words, files: &mut F, out: &mut S) -> Status
    ensures answered { IsAnswered (asked_by words.now) (F.outside files.old).content
        (F.outside files.old) (F.outside files.new) result.code
        (S.output out.old).faults (S.output out.new).faults
        (S.output out.old).taken (S.output out.new).taken }
    ensures headline { Headline (record {
      asked = asked_by words.now;
      content = (F.outside files.old).content;
      status = result.code;
      files_before = F.outside files.old;
      files_now = F.outside files.new;
      sink_before = S.output out.old;
      sink_now = S.output out.new;
    }) }
    ensures never_falls { (F.outside files.old).faults ≤ (F.outside files.new).faults }
    ensures content { (F.outside files.new).content ≡ (F.outside files.old).content }
{
    numbers();
    one_outcome();
    due_answers();
    acceptance();
    let answer = answer(alloc, words, files);
    let code = status(&answer);
    match text_of(alloc, answer) {
        Ok(text) => write(code, text.as_slice(), out),
        Err(_) => write(status(&Answer::OutOfMemory), WANT_OF_MEMORY, out),
    }
}
