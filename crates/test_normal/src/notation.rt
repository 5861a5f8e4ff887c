//! Types and terms as short texts, in which a function stands before its arguments. A type is `o`, `i`, or `>` and two types. A term is a
//! digit, for the variable with so many binders before its own, the letter of a constant or of the witness, `F`, `N` or `I` for falsity,
//! negation and implication, `A`, `E`, `C` or `D` and a type for a quantifier, an equality, a choice and a description, `^`, a type and a
//! body for a function, or `@`, a function and its argument. So `^>ii@0c` is the function that applies its argument, of type `i > i`, to
//! `c`.

use anyhow::Context;
use std::alloc::{AllocError, Global};
use stt_core::{Head, Nf, Term, Ty};

/// The letters of the constants, in the order of the signature.
const CONSTANTS: &[u8] = b"cdfg";

/// What is read of a text so far. It is read from its end, so that the parts of a term come before the term.
#[derive(Drop)]
struct Reader {
    alloc: Global,
    types: Vec<Ty>,
    terms: Vec<Term>,
}

impl Reader {
    fn pop_type(&mut self) -> anyhow::Result<Ty> {
        self.types.pop().context("a type is missing")
    }

    fn pop_term(&mut self) -> anyhow::Result<Term> {
        self.terms.pop().context("a term is missing")
    }

    fn arrow(&mut self) -> anyhow::Result<Ty> {
        let argument = self.pop_type()?;
        let outcome = self.pop_type()?;
        Ok(Ty::function(self.alloc, argument, outcome)?)
    }

    fn abstraction(&mut self) -> anyhow::Result<Term> {
        let ty = self.pop_type()?;
        let body = Box::new(self.alloc, self.pop_term()?)?;
        Ok(Term::Lam(ty, body))
    }

    fn application(&mut self) -> anyhow::Result<Term> {
        let function = Box::new(self.alloc, self.pop_term()?)?;
        let argument = Box::new(self.alloc, self.pop_term()?)?;
        Ok(Term::App(function, argument))
    }

    fn read_term(&mut self, byte: u8) -> anyhow::Result<Term> {
        match byte {
            b'0'..=b'9' => Ok(Term::Bound(u32::from(byte - b'0'))),
            b'^' => self.abstraction(),
            b'@' => self.application(),
            b'A' => Ok(Term::All(self.pop_type()?)),
            b'E' => Ok(Term::Eq(self.pop_type()?)),
            b'C' => Ok(Term::Choice(self.pop_type()?)),
            b'D' => Ok(Term::Desc(self.pop_type()?)),
            _ => constant(byte),
        }
    }

    fn read(&mut self, byte: u8) -> anyhow::Result<()> {
        match byte {
            b'o' => self.types.push(Ty::Base(0))?,
            b'i' => self.types.push(Ty::Base(1))?,
            b'>' => {
                let ty = self.arrow()?;
                self.types.push(ty)?;
            }
            _ => {
                let term = self.read_term(byte)?;
                self.terms.push(term)?;
            }
        }
        Ok(())
    }
}

fn constant(byte: u8) -> anyhow::Result<Term> {
    match byte {
        b'w' => Ok(Term::Wit(0)),
        b'F' => Ok(Term::False),
        b'N' => Ok(Term::Not),
        b'I' => Ok(Term::Imp),
        _ => {
            let place = CONSTANTS
                .iter()
                .position(|&c| c == byte)
                .context("no constant has this letter")?;
            Ok(Term::Name(place as u32))
        }
    }
}

/// The term that a text stands for.
pub fn term_of(alloc: Global, text: &str) -> anyhow::Result<Term> {
    let mut reader = Reader {
        alloc,
        types: Vec::new(alloc),
        terms: Vec::new(alloc),
    };
    for &byte in text.as_bytes().iter().rev() {
        reader.read(byte)?;
    }
    reader.pop_term()
}

fn write_type(out: &mut String, ty: &Ty) -> Result<(), AllocError> {
    match ty {
        Ty::Base(n) => out.push(if *n == 0 { 'o' } else { 'i' })?,
        Ty::Arrow(argument, outcome) => {
            out.push('>')?;
            write_type(out, argument)?;
            write_type(out, outcome)?;
        }
    }
    Ok(())
}

fn write_with_type(out: &mut String, letter: char, ty: &Ty) -> Result<(), AllocError> {
    out.push(letter)?;
    write_type(out, ty)
}

fn digit(k: u32) -> char {
    if k < 10 {
        char::from(b'0' + k as u8)
    } else {
        '?'
    }
}

fn write_head(out: &mut String, head: &Head) -> Result<(), AllocError> {
    match head {
        Head::Bound(k) => out.push(digit(*k))?,
        Head::Name(k) => out.push(char::from(CONSTANTS.get(*k as usize).copied().unwrap_or(b'?')))?,
        Head::Wit(_) => out.push('w')?,
        Head::False => out.push('F')?,
        Head::Not => out.push('N')?,
        Head::Imp => out.push('I')?,
        Head::All(a) => write_with_type(out, 'A', a)?,
        Head::Eq(a) => write_with_type(out, 'E', a)?,
        Head::Choice(a) => write_with_type(out, 'C', a)?,
        Head::Desc(a) => write_with_type(out, 'D', a)?,
    }
    Ok(())
}

/// Adds the text of a canonical term.
pub fn write_nf(out: &mut String, nf: &Nf) -> Result<(), AllocError> {
    for i in 0..nf.binders.len() {
        write_with_type(out, '^', nf.binders.at(i))?;
    }
    for _ in 0..nf.args.len() {
        out.push('@')?;
    }
    write_head(out, &nf.head)?;
    for i in 0..nf.args.len() {
        write_nf(out, nf.args.at(i))?;
    }
    Ok(())
}
