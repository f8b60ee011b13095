// The top call.

ghost use Rattle.std.specs.Prelude.{◌≤◌, length, IfOk, IfErr};
ghost use Rattle.std.specs.Bool.{OnTrue, OnFalse};
ghost use Rattle.bc_base.specs.Outside.{Appends};
ghost use Rattle.bc_words.specs.Commands.{file_limit};
ghost use Rattle.bc_commands.specs.Contract.{IsFile, IsMade, IsCause, AsksFile, ReadsInput, Answers, IsTold, FailsEither, inputs, side};
ghost use Rattle.bc_commands.specs.Reply.{reply_of};
ghost use Rattle.bc_commands.specs.Runs.{IsAsked, IsFileCause};

use crate::answer::{Answer, Refusal};
use crate::make::make;
use bc_base::shelf::{Shelf, ShelfFault};
use bc_base::sink::{Sink, write_all};
use bc_base::source::Source;
use bc_data::list::{Bytes, List};
use bc_data::run::{History, Stop};
use bc_words::commands::command_of;
use std::alloc::Global;

// The status where a write failed.
const WRITE_FAILED: u8 = 7;

// How many bytes a command's file may have.
const FILE_LIMIT: usize = 1_048_576;

/// What a call comes to: its exit status, and for `serial` the committed invocations and the stop.
#[derive(Drop)]
pub struct Report {
    pub status: u8,
    pub history: History,
    pub stop: Option<Stop>,
}

// The text of a command's file.
fn read_file<F: Shelf>(alloc: Global, name: &[u8], shelf: &mut F) -> Result<Bytes, Refusal>
    ensures read { IfOk result (λ text. (length text ≤ file_limit) × IsFile (F.told shelf.old) name.now text) }
    ensures refused { IfErr result (λ r. IsFileCause name.now (F.told shelf.old) (F.faults shelf.old) (F.faults shelf.new) r) }
    ensures asked { IsAsked name.now (F.told shelf.old) (F.told shelf.new) }
{
    match shelf.read_file(alloc, name, FILE_LIMIT) {
        Ok(text) => Ok(text),
        Err(ShelfFault::TooLong) => Err(Refusal::TooLong),
        Err(ShelfFault::Failed) => Err(Refusal::ReadFailed),
        Err(ShelfFault::Memory) => Err(Refusal::Memory),
    }
}

// What the call comes to before anything is written.
fn answer<F: Shelf, S: Source>(
    alloc: Global,
    words: &[Bytes],
    shelf: &mut F,
    source: &mut S,
) -> Result<Answer, Refusal>
    ensures made { IfOk result (λ a. IsMade words.now (inputs (F.told shelf.old) (F.faults shelf.old) (F.faults shelf.new) (side S.left S.faults source.old source.new)) (reply_of a)) }
    ensures refused { IfErr result (λ r. IsCause words.now (inputs (F.told shelf.old) (F.faults shelf.old) (F.faults shelf.new) (side S.left S.faults source.old source.new)) r) }
    ensures asked { AsksFile words.now (F.told shelf.old) (F.told shelf.new) }
    ensures input { ReadsInput words.now (F.told shelf.old) (side S.left S.faults source.old source.new) }
{
    let Some(command) = command_of(words) else {
        return Err(Refusal::NoCommand);
    };
    let text = read_file(alloc, command.file(), shelf)?;
    make(alloc, command, text.as_slice(), source)
}

// Writes a text to `out`, and then a message to `err`. Where the first fails, says so on the second.
fn write_both<K: Sink, E: Sink>(output: &[u8], text: &[u8], out: &mut K, err: &mut E) -> bool
    ensures written { OnTrue result (Appends (K.taken out.old) (K.taken out.new) output.now × Appends (E.taken err.old) (E.taken err.new) text.now) }
    ensures failed { OnFalse result (FailsEither output.now text.now (side K.taken K.faults out.old out.new) (side E.taken E.faults err.old err.new)) }
{
    if write_all(out, output).is_err() {
        let _ = write_all(err, b"write failed\n");
        return false;
    }
    write_all(err, text).is_ok()
}

// Tells an answer.
fn tell<K: Sink, E: Sink>(alloc: Global, answer: Answer, out: &mut K, err: &mut E) -> Report
    ensures { IsTold (reply_of answer) (side K.taken K.faults out.old out.new) (side E.taken E.faults err.old err.new) result }
{
    let status = if write_both(answer.output.text(), answer.message.text(), out, err) {
        answer.status
    } else {
        WRITE_FAILED
    };
    let stop = answer.output.stop();
    Report {
        status,
        history: answer.output.into_history(alloc),
        stop,
    }
}

/// Does what the words say, without the program's name. `serial FILE COMMITS` runs the program in that file on the
/// input, on one thread, up to so many commits: the program's output goes to `out`, and then a message to `err`.
/// `show FILE` writes the canonical text of the program in that file, `check FILE` counts what it declares, and
/// `code FILE` lists its code. A text that is no program is refused with its one fault. The file is asked of the shelf.
/// The input is read for a program that runs, and is left as it was elsewhere.
pub fn plain<F: Shelf, S: Source, K: Sink, E: Sink>(
    alloc: Global,
    words: &List<Bytes>,
    shelf: &mut F,
    input: &mut S,
    out: &mut K,
    err: &mut E,
) -> Report
    ensures answers { Answers words.now
        (inputs (F.told shelf.old) (F.faults shelf.old) (F.faults shelf.new) (side S.left S.faults input.old input.new))
        (side K.taken K.faults out.old out.new) (side E.taken E.faults err.old err.new) result }
    ensures asked { AsksFile words.now (F.told shelf.old) (F.told shelf.new) }
    ensures input { ReadsInput words.now (F.told shelf.old) (side S.left S.faults input.old input.new) }
{
    match answer(alloc, words.as_slice(), shelf, input) {
        Ok(answer) => tell(alloc, answer, out, err),
        Err(refusal) => tell(alloc, Answer::of_refusal(alloc, refusal), out, err),
    }
}
