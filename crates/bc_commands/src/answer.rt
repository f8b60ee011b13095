// What a call comes to before anything is written.

ghost use Rattle.std.specs.Prelude.{◌≡◌};
ghost use Rattle.bc_commands.specs.Reply.{message_of, status_of_refusal, history_of, stop_of, printed_by, text_of, reply_of, reply_of_text, reply_of_refusal};
ghost use Rattle.bc_commands.specs.declared.answer.Refusal.TheVariants.{Memory};

use bc_book::book::Book;
use bc_data::list::{Bytes, List};
use bc_data::run::{History, Stop};
use bc_texts::texts::memory_text;
use std::alloc::{AllocError, Global};

/// The status where memory is wanted before anything is known.
pub const OUT_OF_MEMORY: u8 = 9;

/// A status, and what is to be written.
#[derive(Drop)]
pub struct Answer {
    pub status: u8,
    pub output: Output,
    pub message: Message,
}

/// What goes to `out`.
#[derive(Drop)]
pub enum Output {
    /// A text alone.
    Text(Bytes),
    /// What the run of this book printed.
    Run(Book),
    /// Nothing, though the run of this book is over.
    Hidden(Book),
}

/// What goes to `err`.
#[derive(Drop)]
pub enum Message {
    /// A text that was made.
    Text(Bytes),
    /// A message that takes no memory.
    Fixed(Refusal),
}

/// Why a call writes a message and nothing else.
#[derive(Clone, Copy, Debug, PartialEq, Eq)]
pub enum Refusal {
    NoCommand,
    ReadFailed,
    TooLong,
    Memory,
}

impl Answer {
    /// A text alone.
    pub fn of_text(alloc: Global, text: Bytes) -> Self
        ensures { reply_of result ≡ reply_of_text text }
    {
        Answer {
            status: 0,
            output: Output::Text(text),
            message: Message::Text(List::new(alloc)),
        }
    }

    /// A message alone.
    pub fn of_refusal(alloc: Global, refusal: Refusal) -> Self
        ensures { reply_of result ≡ reply_of_refusal refusal }
    {
        Answer {
            status: refusal.status(),
            output: Output::Text(List::new(alloc)),
            message: Message::Fixed(refusal),
        }
    }
}

impl Output {
    /// The text.
    pub fn text(&self) -> &[u8]
        ensures { result.now ≡ printed_by self.now }
    {
        match self {
            Output::Text(text) => text.as_slice(),
            Output::Run(book) => book.output(),
            Output::Hidden(_) => &[],
        }
    }

    /// Why the run stopped, if there was one.
    pub fn stop(&self) -> Option<Stop>
        ensures { result ≡ stop_of self.now }
    {
        match self {
            Output::Text(_) => None,
            Output::Run(book) | Output::Hidden(book) => book.stop(),
        }
    }

    /// The committed invocations of the run, if there was one.
    pub fn into_history(self, alloc: Global) -> History
        ensures { result ≡ history_of self }
    {
        match self {
            Output::Text(_) => List::new(alloc),
            Output::Run(book) | Output::Hidden(book) => book.into_history(),
        }
    }
}

impl Message {
    /// The text.
    pub fn text(&self) -> &[u8]
        ensures { result.now ≡ text_of self.now }
    {
        match self {
            Message::Text(text) => text.as_slice(),
            Message::Fixed(refusal) => refusal.message(),
        }
    }
}

impl Refusal {
    /// The exit status.
    pub fn status(self) -> u8
        ensures { result ≡ status_of_refusal self }
    {
        match self {
            Refusal::NoCommand => 2,
            Refusal::ReadFailed => 6,
            Refusal::TooLong => 8,
            Refusal::Memory => OUT_OF_MEMORY,
        }
    }

    /// The message, which takes no memory.
    pub fn message(self) -> &'static [u8]
        ensures { result.now ≡ message_of self }
    {
        match self {
            Refusal::NoCommand => b"words: not a command\n",
            Refusal::ReadFailed => b"read failed\n",
            Refusal::TooLong => b"too long\n",
            Refusal::Memory => memory_text(),
        }
    }
}

impl From<AllocError> for Refusal {
    ghost from_gives = { λ _ refusal. refusal ≡ Memory };

    fn from(_: AllocError) -> Self {
        Refusal::Memory
    }
}
