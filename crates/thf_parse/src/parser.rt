//! Files.
ghost use Rattle.std.specs.Prelude.{◌≡◌, ◌∷◌, [], ◌++◌, map, IfOk, OnErr, IfErr};
ghost use Rattle.thf_grammar.specs.Reading.{AreTokens};
ghost use Rattle.thf_grammar.specs.View.{the_statement, the_file};
ghost use Rattle.thf_grammar.specs.Words.{lexemes};
ghost use Rattle.thf_parse.specs.Internal.StatementReader as reader;
ghost use Rattle.thf_parse.specs.Parsing.{depth_limit, HasTree, IsRefusedAt};
ghost use Rattle.thf_parse.specs.Internal.Reads.{ReadsFile};

use crate::cursor::Cursor;
use crate::refusal::Refusal;
use crate::statement::statement;
use std::alloc::{AllocError, Global};
use thf_grammar::{FileTree, Statement, Terminal};
use thf_lex::Tokens;
use thiserror::Error;

/// How many things may be open at once in a body or in notes.
pub const MAX_DEPTH: u32 = 512;

/// Why tokens have no tree, or that memory ran out. Each `at` is the byte place of a token.
#[derive(Debug, Drop, Error)]
pub enum ParseRefused {
    /// The first token with which the tokens begin no file.
    #[error("byte {at}: a wrong token")]
    At { at: u32 },
    /// The first token at which more than 512 things are open.
    #[error("byte {at}: a token that is too deep")]
    TooDeep { at: u32 },
    #[error("no memory is left")]
    Memory,
}

fn is_end(found: Terminal) -> bool
    ensures { result ≡ reader.is_end found }
{
    matches!(found, Terminal::End)
}

/// The statements with one more.
fn with_statement(mut file: FileTree, statement: Statement) -> Result<FileTree, AllocError>
    ensures { IfOk result (λ more. map the_statement more ≡ map the_statement file ++ the_statement statement ∷ []) }
{
    file.push(statement)?;
    Ok(file)
}

/// The statements up to the end of the tokens, where `room` things may be open at once.
fn statements(alloc: Global, room: u32, cursor: &mut Cursor) -> Result<FileTree, Refusal>
    ensures { ReadsFile cursor.new result (reader.file room [] cursor.old) }
{
    let mut file = FileTree::new(alloc);
    'statements: while !is_end(cursor.found()) {
        let read = match statement(alloc, room, cursor) {
            Ok(read) => read,
            Err(refusal) => return Err(refusal),
        };
        file = with_statement(file, read)?;
    }
    Ok(file)
}

/// The tree of a file's tokens.
pub fn parse(alloc: Global, bytes: &[u8], tokens: &Tokens) -> Result<FileTree, ParseRefused>
    requires { AreTokens bytes.now tokens.now }
    ensures tree { IfOk result (λ file. HasTree depth_limit (lexemes bytes.now tokens.now) (the_file file)) }
    ensures refused { IfErr result (λ refused. IsRefusedAt depth_limit (lexemes bytes.now tokens.now) refused) }
{
    let mut cursor = Cursor::new(bytes, tokens.as_slice());
    match statements(alloc, MAX_DEPTH, &mut cursor) {
        Ok(file) => Ok(file),
        Err(Refusal::Wrong) => Err(ParseRefused::At { at: cursor.place() }),
        Err(Refusal::TooDeep) => Err(ParseRefused::TooDeep { at: cursor.place() }),
        Err(Refusal::Memory) => Err(ParseRefused::Memory),
    }
}
