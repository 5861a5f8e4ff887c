//! Refutations of witness rows alone.

use std::alloc::{AllocError, Global};
use std::test::Fail;
use stt_core::{Head, Nf, Nfs, Signature, Ty, Types};
use stt_tableau::accepts_plain;
use tableau_calculus::{Lines, Lits, PlainRefused, Refutation, Rows, Why, WitnessRow};

/// What an individual is compared with.
#[derive(Clone, Copy, Debug)]
enum Other {
    Itself,
    Witness(u32),
}

/// The number of a row's base type, and the predicate by what its argument is compared with.
type Row = (u32, Other);

fn individual(alloc: Global, head: Head) -> Nf {
    Nf {
        binders: Types::new(alloc),
        head,
        args: Nfs::new(alloc),
    }
}

/// The predicate of being the same individual.
fn predicate(alloc: Global, other: Other) -> Result<Nf, AllocError> {
    let other = match other {
        Other::Itself => Head::Bound(0),
        Other::Witness(k) => Head::Wit(k),
    };
    let mut binders = Types::new(alloc);
    binders.push(Ty::Base(1))?;
    let mut args = Nfs::new(alloc);
    args.push(individual(alloc, other))?;
    args.push(individual(alloc, Head::Bound(0)))?;
    Ok(Nf {
        binders,
        head: Head::Eq(Ty::Base(1)),
        args,
    })
}

/// The place and the cause of the first failure of rows without a line.
fn failure(alloc: Global, rows: &[Row]) -> Result<(usize, Why), Fail> {
    let mut witnesses = Rows::new(alloc);
    for (base, other) in rows {
        witnesses.push(WitnessRow {
            ty: Ty::Base(*base),
            predicate: predicate(alloc, *other)?,
        })?;
    }
    let refutation = Refutation {
        witnesses,
        lines: Lines::new(alloc),
    };
    let start = Lits::new(alloc);
    match accepts_plain(alloc, &Signature::new(alloc), &start, &refutation) {
        Ok(()) => Err("no row fails")?,
        Err(PlainRefused::Refused { line, why }) => Ok((line, why)),
        Err(PlainRefused::Memory) => Err("out of memory")?,
    }
}

const ROWS: &[(&[Row], usize, Why)] = &[
    (&[], 0, Why::Last),
    (&[(1, Other::Itself)], 1, Why::Last),
    (&[(1, Other::Itself), (1, Other::Witness(0))], 2, Why::Last),
    // A predicate names its own witness, or a later one.
    (&[(1, Other::Witness(0))], 0, Why::Typing),
    (
        &[(1, Other::Itself), (1, Other::Witness(1))],
        1,
        Why::Typing,
    ),
    // The second row has the predicate of the first.
    (&[(1, Other::Itself), (1, Other::Itself)], 1, Why::Twice),
    // The predicate is one of another type.
    (&[(0, Other::Itself)], 0, Why::Typing),
];

#[test]
fn witness_rows(rt: HostRuntime) -> Result<(), Fail> {
    for (rows, place, why) in ROWS {
        assert_eq!(rt; failure(rt.alloc(), rows)?, (*place, *why), "{rows:?}");
    }
    Ok(())
}
