// From the bytes of a program's text to its tree, or to its one fault.

ghost use Rattle.std.specs.Prelude.{◌≡◌, ◌≤◌, length, IfOk, IfErr};
ghost use Rattle.bc_data.specs.View.{view_tree};
ghost use Rattle.bc_read.specs.Reading.{IsText, IsProgramText, IsFault, IsLexicalFault, IsGrammarFault, refused_as, fault_of_types};

use bc_data::program::Program;
use bc_data::run::Place;
use bc_data::tree::Tree;
use bc_lex::{LexFault, tokens};
use bc_names::{TypeFault, TypeKind};
use bc_parse::{ParseFault, parse};
use bc_texts::refused::RefusedKind;
use bc_types::check;
use std::alloc::Global;

/// Why a text is no program: its one fault, with its place, or want of memory.
#[derive(Clone, Copy, Debug, PartialEq, Eq)]
pub enum TextFault {
    Refused(RefusedKind, Place),
    Memory,
}

fn lexical(fault: LexFault) -> TextFault
    ensures { IsLexicalFault fault result }
{
    match fault {
        LexFault::BadByte { at } => TextFault::Refused(RefusedKind::BadByte, at),
        LexFault::OpenComment { at } => TextFault::Refused(RefusedKind::OpenComment, at),
        LexFault::OpenText { at } => TextFault::Refused(RefusedKind::OpenText, at),
        LexFault::NumberRange { at } => TextFault::Refused(RefusedKind::NumberRange, at),
        LexFault::Memory => TextFault::Memory,
    }
}

fn grammatical(fault: ParseFault) -> TextFault
    ensures { IsGrammarFault fault result }
{
    match fault {
        ParseFault::Unexpected { at } => TextFault::Refused(RefusedKind::Unexpected, at),
        ParseFault::TooDeep { at } => TextFault::Refused(RefusedKind::TooDeep, at),
        ParseFault::Memory => TextFault::Memory,
    }
}

fn of_types(kind: TypeKind) -> RefusedKind
    ensures { result ≡ refused_as kind }
{
    match kind {
        TypeKind::Twice => RefusedKind::Twice,
        TypeKind::TooMany => RefusedKind::TooMany,
        TypeKind::Unknown => RefusedKind::Unknown,
        TypeKind::Mismatch => RefusedKind::Mismatch,
        TypeKind::Arity => RefusedKind::Arity,
        TypeKind::Fixed => RefusedKind::Fixed,
        TypeKind::Misplaced => RefusedKind::Misplaced,
        TypeKind::NoReturn => RefusedKind::NoReturn,
    }
}

fn mistyped(fault: TypeFault) -> TextFault
    ensures { result ≡ fault_of_types fault }
{
    match fault {
        TypeFault::Refused { kind, at } => TextFault::Refused(of_types(kind), at),
        TypeFault::Memory => TextFault::Memory,
    }
}

/// The tree of a text, within 64 levels.
///
/// # Errors
///
/// The first fault of the text's tokens, else the first token that is refused; or `Memory`.
pub fn read_tree(alloc: Global, text: &[u8]) -> Result<Tree, TextFault>
    requires { length text.now ≤ 1048576 }
    ensures tree { IfOk result (λ tree. IsText text.now (view_tree tree)) }
    ensures fault { IfErr result (λ fault. IsFault text.now fault) }
{
    match tokens(alloc, text) {
        Ok(tokens) => match parse(alloc, text, &tokens) {
            Ok(tree) => Ok(tree),
            Err(fault) => Err(grammatical(fault)),
        },
        Err(fault) => Err(lexical(fault)),
    }
}

/// A text that is read: its tree, and the program that it is.
#[derive(Drop)]
pub struct ProgramText {
    pub tree: Tree,
    pub program: Program,
}

/// The tree of a text, within 64 levels, and its program.
///
/// # Errors
///
/// The first fault of the text's tokens, else the first token that is refused, else the first fault of names and types;
/// or `Memory`.
pub fn read_program(alloc: Global, text: &[u8]) -> Result<ProgramText, TextFault>
    requires { length text.now ≤ 1048576 }
    ensures program { IfOk result (λ r. IsProgramText text.now (view_tree r.tree) r.program) }
    ensures fault { IfErr result (λ fault. IsFault text.now fault) }
{
    let tree = read_tree(alloc, text)?;
    match check(alloc, &tree) {
        Ok(program) => Ok(ProgramText { tree, program }),
        Err(fault) => Err(mistyped(fault)),
    }
}
