//! How many bytes problems have.
ghost use Rattle.std.specs.Prelude.{◌≡◌, ◌≤◌, ◌+◌, ◌*◌, length, decimal};
ghost use Rattle.problem_gen.specs.Chain.{predicate_letter, implication, lines_below, text};

use itoa::Buffer;

fn digits(n: u32) -> usize
    ensures value { result ≡ length (decimal n) }
    ensures bound { result ≤ 40 }
{
    Buffer::new().format(n).len()
}

fn predicate_length(k: u32) -> usize
    ensures value { result ≡ length (predicate_letter k) }
    ensures bound { result ≤ 200 }
{
    29 + 2 * digits(k)
}

fn implication_length(j: u32) -> usize
    requires { j ≤ 1000 }
    ensures value { result ≡ length (implication j) }
    ensures bound { result ≤ 200 }
{
    64 + digits(j) + 2 * digits(j + 1)
}

fn predicates_length(end: u32) -> usize
    requires { end ≤ 1001 }
    ensures value { result ≡ length (lines_below predicate_letter end) }
    ensures bound { result ≤ 200 * end }
{
    let mut total = 0;
    for k in 0..end {
        total += predicate_length(k);
    }
    total
}

fn implications_length(end: u32) -> usize
    requires { end ≤ 1000 }
    ensures value { result ≡ length (lines_below implication end) }
    ensures bound { result ≤ 200 * end }
{
    let mut total = 0;
    for j in 0..end {
        total += implication_length(j);
    }
    total
}

/// The bytes of the problem of a number.
pub(crate) fn problem_length(n: u32) -> usize
    requires { n ≤ 1000 }
    ensures { result ≡ length (text n) }
{
    82 + digits(n) + predicates_length(n + 1) + implications_length(n)
}
