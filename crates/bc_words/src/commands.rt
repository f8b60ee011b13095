// Command lines.

ghost use Rattle.std.specs.Prelude.{◌≡◌, [], ◌∷◌, IfSome, IfNone};
ghost use Rattle.bc_words.specs.Commands.{IsCommand, IsNoCommand, IsNoSerial, AreNone, file_name};

use bc_data::list::Bytes;
use bc_data::text::read_decimal;

/// A command with its names and numbers, which borrows the names from the words.
#[derive(Clone, Copy, Debug, PartialEq, Eq)]
pub enum Command<'a> {
    /// The file is run on the input, up to so many commits.
    Serial { file: &'a [u8], commits: u32 },
    /// The file's canonical text.
    Show { file: &'a [u8] },
    /// The counts of what the file declares.
    Check { file: &'a [u8] },
    /// The listing of the file's code.
    Code { file: &'a [u8] },
}

impl<'a> Command<'a> {
    /// The name of the command's file.
    pub fn file(&self) -> &'a [u8]
        ensures { result.now ≡ file_name self.now }
    {
        match self {
            Command::Serial { file, .. } => file,
            Command::Show { file } => file,
            Command::Check { file } => file,
            Command::Code { file } => file,
        }
    }
}

// The command, where the words are `serial FILE COMMITS` with COMMITS from 1 to 1,000,000.
fn serial(words: &[Bytes]) -> Option<Command<'_>>
    ensures command { IfSome result (λ c. IsCommand words.now c) }
    ensures none { IfNone result (IsNoSerial words.now) }
{
    let [command, file, commits] = words else {
        return None;
    };
    if command.as_slice() != b"serial".as_slice() {
        return None;
    }
    let limit = read_decimal(commits.as_slice())?;
    if limit >= 1 && limit <= 1_000_000 {
        Some(Command::Serial {
            file: file.as_slice(),
            commits: limit as u32,
        })
    } else {
        None
    }
}

// The name of the file, where the words are this name and a file's.
fn file_behind<'a>(words: &'a [Bytes], name: &[u8]) -> Option<&'a [u8]>
    ensures yes { IfSome result (λ file. words.now ≡ name.now ∷ file.now ∷ []) }
    ensures no { IfNone result (AreNone words.now name.now) }
{
    let [command, file] = words else {
        return None;
    };
    if command.as_slice() == name {
        Some(file.as_slice())
    } else {
        None
    }
}

/// The command that the words are.
pub fn command_of(words: &[Bytes]) -> Option<Command<'_>>
    ensures command { IfSome result (λ c. IsCommand words.now c) }
    ensures none { IfNone result (IsNoCommand words.now) }
{
    if let Some(command) = serial(words) {
        return Some(command);
    }
    if let Some(file) = file_behind(words, b"show") {
        return Some(Command::Show { file });
    }
    if let Some(file) = file_behind(words, b"check") {
        return Some(Command::Check { file });
    }
    if let Some(file) = file_behind(words, b"code") {
        Some(Command::Code { file })
    } else {
        None
    }
}
