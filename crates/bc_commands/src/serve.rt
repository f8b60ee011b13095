// The run of a program on its input, and what is told of it.

ghost use Rattle.std.specs.Prelude.{◌≡◌, ◌≤◌, ℕ, List, length, IfOk, IfErr, OnErr};
ghost use Rattle.bc_data.specs.Typed.{TypedProgram};
ghost use Rattle.bc_failed.specs.Ordered.{ordered};
ghost use Rattle.bc_texts.specs.Texts.{stop_text};
ghost use Rattle.bc_commands.specs.Contract.{IsInput, IsInputCause, IsTaken, Tells, input_limit, side};
ghost use Rattle.bc_commands.specs.Reply.{reply_of, status_of, text_of};
ghost use Rattle.bc_commands.specs.Runs.{HasRun, IsServed};

use crate::answer::{Answer, Message, OUT_OF_MEMORY, Output, Refusal};
use bc_base::source::{ReadFault, Source, read_all};
use bc_book::book::Book;
use bc_data::list::Bytes;
use bc_data::program::Program;
use bc_data::run::Stop;
use bc_failed::laws::order_exact;
use bc_gen_stmt::generate;
use bc_serial::finish::finish;
use bc_serial::laws::runs_from_start;
use bc_texts::texts::{crowded_text, end_text, spent_text};
use std::alloc::{AllocError, Global};

// How many bytes the input may have.
const INPUT_LIMIT: usize = 65_536;

// How many failures are told at the end.
const FAILURES_TOLD: usize = 20;

// The whole input.
fn read_input<S: Source>(alloc: Global, source: &mut S) -> Result<Bytes, Refusal>
    ensures read { IfOk result (λ input. IsInput (side S.left S.faults source.old source.new) input) }
    ensures refused { IfErr result (λ r. IsInputCause (side S.left S.faults source.old source.new) r) }
    ensures taken { IsTaken (side S.left S.faults source.old source.new) }
{
    match read_all(alloc, source, INPUT_LIMIT) {
        Ok(input) => Ok(input),
        Err(ReadFault::TooLong) => Err(Refusal::TooLong),
        Err(ReadFault::Failed) => Err(Refusal::ReadFailed),
        Err(ReadFault::Memory) => Err(Refusal::Memory),
    }
}

// The book of a run that is over.
fn run(alloc: Global, program: Program, input: &[u8], commits: u32) -> Result<Book, AllocError>
    requires short { length input.now ≤ input_limit }
    requires limited { commits ≤ 1000000 }
    ensures { IfOk result (λ book. HasRun program input.now commits book) }
{
    runs_from_start();
    let code = generate(alloc, &program)?;
    let mut book = Book::make(alloc, program, input, commits, 1)?;
    finish(alloc, &mut book, &code);
    book.is_sound();
    Ok(book)
}

// The exit status of a run.
fn status_of(stop: &Stop) -> u8
    ensures { result ≡ status_of stop.now }
{
    match stop {
        Stop::End => 0,
        Stop::Spent(_) => 3,
        Stop::Crowded(_) => 4,
        Stop::Memory => OUT_OF_MEMORY,
    }
}

// What is told of the end of a run. It takes no memory where memory was wanting.
fn message_of(alloc: Global, book: &Book, stop: &Stop) -> Result<Message, AllocError>
    ensures told { IfOk result (λ m. text_of m ≡ stop_text book.now.program stop.now (length book.now.history) (ordered book.now.failures)) }
    ensures other { OnErr result (stop.now ≡ Stop.Memory → ⊥) }
{
    order_exact();
    let committed = book.history().len();
    let text = match stop {
        Stop::End => {
            let first = book.least_failures(alloc, FAILURES_TOLD)?;
            end_text(
                alloc,
                book.program(),
                committed,
                book.failed(),
                first.as_slice(),
            )?
        }
        Stop::Spent(_) => spent_text(alloc, committed)?,
        Stop::Crowded(_) => crowded_text(alloc, committed)?,
        Stop::Memory => return Ok(Message::Fixed(Refusal::Memory)),
    };
    Ok(Message::Text(text))
}

// What is told of a run that is over. Where there is no memory for the message, the output isn't told.
fn told(alloc: Global, book: Book) -> Answer
    ensures { (program : TypedProgram) (input : List ℕ) (commits : ℕ) → HasRun program input commits book → Tells program input commits (reply_of result) }
{
    let stop = book.stop().unwrap_or(Stop::Memory);
    match message_of(alloc, &book, &stop) {
        Ok(message) => Answer {
            status: status_of(&stop),
            output: Output::Run(book),
            message,
        },
        Err(_) => Answer {
            status: OUT_OF_MEMORY,
            output: Output::Hidden(book),
            message: Message::Fixed(Refusal::Memory),
        },
    }
}

/// Runs a program on the input, with at most so many commits, and gives what is told of the run.
///
/// # Errors
///
/// `TooLong` where the input is longer than its limit, `ReadFailed` where a read failed, or `Memory`.
pub fn serve<S: Source>(
    alloc: Global,
    program: Program,
    source: &mut S,
    commits: u32,
) -> Result<Answer, Refusal>
    requires { commits ≤ 1000000 }
    ensures served { IfOk result (λ a. IsServed program commits (side S.left S.faults source.old source.new) (reply_of a)) }
    ensures refused { IfErr result (λ r. IsInputCause (side S.left S.faults source.old source.new) r) }
    ensures taken { IsTaken (side S.left S.faults source.old source.new) }
{
    let input = read_input(alloc, source)?;
    let book = run(alloc, program, input.as_slice(), commits)?;
    Ok(told(alloc, book))
}
