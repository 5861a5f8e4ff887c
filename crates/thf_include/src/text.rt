//! The statements in the text of a file.

ghost use Rattle.std.specs.Prelude.{◌≡◌, ◌≤◌, ◌^◌, length, IsUtf8, IfOk, IfErr};
ghost use Rattle.thf_grammar.specs.View.{the_file};
ghost use Rattle.thf_include.specs.Gathering.{IsFileText};
ghost use Rattle.thf_include.specs.Internal.Opening.{IsTextRefusal};

use crate::GatherRefused;
use outside::Bytes;
use std::alloc::Global;
use std::str;
use thf_grammar::Statement;
use thf_lex::lex;
use thf_parse::{ParseRefused, parse};

/// The statements in the text of the file with this number.
pub fn statements_in(
    alloc: Global,
    file: u32,
    text: &Bytes,
) -> Result<Vec<Statement>, GatherRefused>
    requires { length text.now ≤ 2 ^ 24 }
    ensures tree { IfOk result (λ statements. IsFileText text.now (the_file statements.items)) }
    ensures refused { IfErr result (IsTextRefusal text.now file) }
{
    let bytes = text.as_slice();
    let tokens = lex(alloc, bytes)?;
    match parse(alloc, bytes, &tokens) {
        Ok(tree) => Ok(tree.into_statements()),
        Err(ParseRefused::At { at } | ParseRefused::TooDeep { at }) => {
            Err(GatherRefused::Syntax { file, at })
        }
        Err(ParseRefused::Memory) => Err(GatherRefused::Memory),
    }
}

/// The name of a file as text.
pub fn text_of(name: &[u8]) -> &str
    requires { IsUtf8 name.now }
    ensures { result.now ≡ name.now }
{
    str::from_utf8(name).unwrap()
}
