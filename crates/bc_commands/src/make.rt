// What each command makes of the text of its file.

ghost use Rattle.std.specs.Prelude.{◌≡◌, ◌≤◌, length, IfOk, IfErr};
ghost use Rattle.bc_texts.specs.Texts.{ok_text};
ghost use Rattle.bc_words.specs.Commands.{IsInRange, file_limit};
ghost use Rattle.bc_commands.specs.Contract.{IsMadeOrRefused, side};
ghost use Rattle.bc_commands.specs.Reply.{reply_of, reply_of_fault};
ghost use Rattle.bc_commands.specs.Runs.{IsMakeCause, TakesToRun, ListsProgram};

use crate::answer::{Answer, Message, Output, Refusal};
use crate::serve::serve;
use bc_base::source::Source;
use bc_code::listing::listing;
use bc_data::list::{Bytes, List};
use bc_data::program::Program;
use bc_data::run::Place;
use bc_gen_stmt::generate;
use bc_print::print_tree;
use bc_read::reader::{TextFault, read_program};
use bc_texts::refused::RefusedKind;
use bc_texts::texts::{ok_text, refused_text};
use bc_words::commands::Command;
use std::alloc::{AllocError, Global};

// The answer to a text that is no program.
fn answer_of_fault(alloc: Global, kind: RefusedKind, at: Place) -> Result<Answer, AllocError>
    ensures { IfOk result (λ a. reply_of a ≡ reply_of_fault kind at) }
{
    Ok(Answer {
        status: 1,
        output: Output::Text(List::new(alloc)),
        message: Message::Text(refused_text(alloc, kind, at)?),
    })
}

// The text that counts what a program declares.
fn counts(alloc: Global, program: &Program) -> Result<Bytes, AllocError>
    ensures { IfOk result (λ text. text ≡ ok_text (length program.now.classes) (length program.now.tag_types) (length program.now.tasks)) }
{
    ok_text(
        alloc,
        program.classes().len(),
        program.tag_types().len(),
        program.tasks().len(),
    )
}

// The listing of a program's code.
fn list(alloc: Global, program: &Program) -> Result<Bytes, AllocError>
    ensures { IfOk result (λ text. ListsProgram program.now text) }
{
    let code = generate(alloc, program)?;
    listing(alloc, &code, program)
}

/// The answer that a command makes of the text of its file. `serial` alone reads the input, and only where the text is a
/// program.
///
/// # Errors
///
/// For `serial` those of the input: `TooLong` or `ReadFailed`. For each command `Memory`.
pub fn make<S: Source>(
    alloc: Global,
    command: Command<'_>,
    text: &[u8],
    source: &mut S,
) -> Result<Answer, Refusal>
    requires within { length text.now ≤ file_limit }
    requires range { IsInRange command }
    ensures made { IfOk result (λ a.
        IsMadeOrRefused command.entry text.now (side S.left S.faults source.old source.new) (reply_of a)) }
    ensures refused { IfErr result (λ r.
        IsMakeCause command.entry text.now (side S.left S.faults source.old source.new) r) }
    ensures taken { TakesToRun command.entry text.now (side S.left S.faults source.old source.new) }
{
    let read = match read_program(alloc, text) {
        Ok(read) => read,
        Err(TextFault::Refused(kind, at)) => return Ok(answer_of_fault(alloc, kind, at)?),
        Err(TextFault::Memory) => return Err(Refusal::Memory),
    };
    match command {
        Command::Serial { commits, .. } => serve(alloc, read.program, source, commits),
        Command::Show { .. } => Ok(Answer::of_text(alloc, print_tree(alloc, &read.tree)?)),
        Command::Check { .. } => Ok(Answer::of_text(alloc, counts(alloc, &read.program)?)),
        Command::Code { .. } => Ok(Answer::of_text(alloc, list(alloc, &read.program)?)),
    }
}
