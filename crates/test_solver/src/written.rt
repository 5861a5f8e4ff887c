//! The literals of a few variables, and how clauses are written.

use sat_base::{SatLit, Var};
use std::alloc::AllocError;

pub const P: SatLit = SatLit {
    var: Var(0),
    positive: true,
};

pub const NOT_P: SatLit = SatLit {
    var: Var(0),
    positive: false,
};

pub const Q: SatLit = SatLit {
    var: Var(1),
    positive: true,
};

pub const NOT_Q: SatLit = SatLit {
    var: Var(1),
    positive: false,
};

pub const R: SatLit = SatLit {
    var: Var(2),
    positive: true,
};

pub const S: SatLit = SatLit {
    var: Var(3),
    positive: true,
};

fn letter(var: Var) -> char {
    match var.0 {
        0 => 'p',
        1 => 'q',
        2 => 'r',
        3 => 's',
        _ => '?',
    }
}

/// Adds the literals, in brackets.
pub fn write_clause(out: &mut String, literals: &[SatLit]) -> Result<(), AllocError> {
    out.push('[')?;
    for (i, literal) in literals.iter().enumerate() {
        if i > 0 {
            out.push(' ')?;
        }
        if !literal.positive {
            out.push('-')?;
        }
        out.push(letter(literal.var))?;
    }
    out.push(']')
}
