//! The pieces of a report, and their writer.

ghost use Rattle.std.specs.Prelude.{◌≡◌, ◌≤◌, length};
ghost use Rattle.std.specs.List.{flat_map};
ghost use Rattle.szs_report.specs.Internal.Pieces.{piece_bytes, Writes};

use crate::proof_text::ProofText;
use itoa::Buffer;
use outside::{Failed, Sink, write_all_counted, write_pieces};
use std::marker::Model;

/// A piece of a report.
#[derive(Clone, Copy)]
pub(crate) enum Piece<'a> {
    Bytes(&'a [u8]),
    /// A number in digits.
    Number(u64),
    /// A line of a word and a number.
    NumberLine(&'a [u8], u64),
    /// The text of a refutation.
    Text(&'a ProofText),
}

/// How many pieces a report has at most.
const MOST: usize = 14;

/// The pieces of a report, with empty ones behind them. They take no memory. Contracts see their bytes.
#[derive(Drop)]
pub(crate) struct Pieces<'a> {
    all: [Piece<'a>; MOST],
}

impl<'a> Model for Pieces<'a> {
    ghost use Rattle.std.specs.Prelude.{List, ℕ};
    ghost use Rattle.std.specs.List.{flat_map};
    ghost use Rattle.szs_report.specs.Internal.Pieces.{piece_bytes};

    ghost Value = { List ℕ };

    ghost view = { λ p. flat_map piece_bytes p.all };
}

impl<'a> Pieces<'a> {
    /// A report of these pieces.
    pub(crate) fn of(pieces: &[Piece<'a>]) -> Pieces<'a>
        requires fits { length pieces.now ≤ 14 }
        ensures { result ≡ flat_map piece_bytes pieces.now }
    {
        let mut all = [Piece::Bytes(b""); MOST];
        all[..pieces.len()].copy_from_slice(pieces);
        Pieces { all }
    }

    /// Writes the report.
    pub(crate) fn write_to<S: Sink>(&self, out: &mut S) -> Result<(), Failed>
        ensures { Writes S.tells S.written S.faults out.old out.new self.now result }
    {
        write_each(out, &self.all)
    }
}

/// Writes a piece.
fn write_piece<S: Sink>(out: &mut S, piece: &Piece<'_>) -> Result<(), Failed>
    ensures { Writes S.tells S.written S.faults out.old out.new (piece_bytes piece.now) result }
{
    let mut buffer = Buffer::new();
    match piece {
        Piece::Bytes(bytes) => write_all_counted(out, bytes),
        Piece::Number(number) => write_all_counted(out, buffer.format(*number).as_bytes()),
        Piece::NumberLine(word, number) => {
            write_pieces(out, &[word, buffer.format(*number).as_bytes(), b"\n"])
        }
        Piece::Text(text) => text.write_to(out),
    }
}

/// Writes pieces, one after another.
fn write_each<S: Sink>(out: &mut S, pieces: &[Piece<'_>]) -> Result<(), Failed>
    ensures { Writes S.tells S.written S.faults out.old out.new (flat_map piece_bytes pieces.now) result }
{
    for piece in pieces {
        match write_piece(out, piece) {
            Ok(()) => {}
            Err(Failed) => return Err(Failed),
        }
    }
    Ok(())
}
