//! Rows of agendas: the least due number leaves first, and of equal ones the command that was pushed first.
ghost use Rattle.std.specs.Prelude.{◌≡◌, ◌+◌, ◌%◌};

use command_queue::{Agenda, DueRule, Entry, Weigher};
use std::alloc::{AllocError, Global};

#[derive(Clone, Copy, Debug, PartialEq, Eq)]
struct Job {
    name: char,
    delay: u32,
}

impl Job {
    fn delay(&self) -> u32
        ensures { result ≡ self.now.delay }
    {
        self.delay
    }
}

#[derive(Drop)]
struct OwnDelay;

impl DueRule<Job> for OwnDelay {
    ghost due = { λ _ job now. now + job.delay };
}

#[derive(Drop)]
struct ByRemainder;

impl DueRule<u32> for ByRemainder {
    ghost due = { λ _ k now. now + k % 1000 };
}

/// Jobs with their names and delays, and the moments at which they are pushed.
const ROWS: &[&[(char, u32, u32)]] = &[
    &[('a', 2, 0), ('b', 0, 0), ('c', 2, 0)],
    &[('a', 3, 0), ('b', 9, 0), ('c', 0, 3)],
    &[('a', 3, 0), ('b', 2, 0), ('c', 1, 0)],
    &[('a', 1000, 0), ('b', 0, 1000), ('c', 0, 999)],
    &[
        ('a', 0, 4294967295),
        ('b', 1000, 4294966294),
        ('c', 1, 4294967295),
    ],
    &[('a', 5, 5), ('b', 5, 5), ('c', 5, 5)],
    &[],
];

/// Adds the names of the jobs in the order in which they leave, and a full stop where the agenda is empty then.
fn write_order<W: Weigher<Job>>(
    alloc: Global,
    weigher: W,
    jobs: &[(char, u32, u32)],
    out: &mut String,
) -> Result<(), AllocError>
    requires callable { W.is_callable weigher }
    requires answers { W.answers weigher (λ job now. now + job.delay) }
{
    let mut agenda = Agenda::new(alloc, OwnDelay, weigher);
    for (name, delay, moment) in jobs {
        let (name, delay) = (*name, *delay);
        agenda.push(Job { name, delay }, *moment as u64)?;
    }
    for _ in 0..jobs.len() {
        match agenda.pop() {
            Some(job) => out.push(job.name)?,
            None => out.push('?')?,
        }
    }
    if agenda.pop().is_none() && agenda.is_empty() {
        out.push('.')?;
    }
    Ok(())
}

/// A job that is due one command later.
fn soon(name: char) -> Job {
    Job { name, delay: 1 }
}

/// A job without a delay.
fn at_once(name: char) -> Job {
    Job { name, delay: 0 }
}

/// Adds the names in the order in which they leave of a loop of the jobs a, b and c, of which one waits at a time, beside a job d that was
/// pushed after it.
fn write_loop<W: Weigher<Job>>(
    alloc: Global,
    weigher: W,
    out: &mut String,
) -> Result<(), AllocError>
    requires callable { W.is_callable weigher }
    requires answers { W.answers weigher (λ job now. now + job.delay) }
{
    let mut agenda = Agenda::new(alloc, OwnDelay, weigher);
    agenda.push_first(soon('a'), 7, 3)?;
    agenda.push(soon('d'), 7)?;
    let Some(first) = agenda.pop_entry() else {
        return Ok(());
    };
    out.push(first.command.name)?;
    agenda.push_at(Entry {
        due: first.due,
        number: 1,
        command: soon('b'),
    })?;
    let Some(second) = agenda.pop_entry() else {
        return Ok(());
    };
    out.push(second.command.name)?;
    agenda.push_at(Entry {
        due: second.due,
        number: 2,
        command: soon('c'),
    })?;
    for _ in 0..2 {
        if let Some(last) = agenda.pop() {
            out.push(last.name)?;
        }
    }
    Ok(())
}

/// Adds whether there is room for three jobs after a reserve, and then how many jobs are there, how many were pushed, and by how much the
/// room is less: after two pushes, and after a pop.
fn write_counts<W: Weigher<Job>>(
    alloc: Global,
    weigher: W,
    out: &mut String,
) -> Result<(), AllocError>
    requires callable { W.is_callable weigher }
    requires answers { W.answers weigher (λ job now. now + job.delay) }
{
    let mut agenda = Agenda::new(alloc, OwnDelay, weigher);
    agenda.reserve(3)?;
    let room = agenda.spare();
    write!(out, "{}", room >= 3)?;
    agenda.push(at_once('a'), 0)?;
    agenda.push(at_once('b'), 0)?;
    for _ in 0..2 {
        let less = room.saturating_sub(agenda.spare());
        write!(out, ", {} of {} less {less}", agenda.len(), agenda.pushes())?;
        let _left = agenda.pop();
    }
    Ok(())
}

/// Whether a million commands leave by their delays and then by their numbers.
fn million_in_order<W: Weigher<u32>>(alloc: Global, weigher: W) -> Result<bool, AllocError>
    requires callable { W.is_callable weigher }
    requires answers { W.answers weigher (λ k now. now + k % 1000) }
{
    let mut agenda = Agenda::new(alloc, ByRemainder, weigher);
    for k in 0..1_000_000 {
        agenda.push(k, 0)?;
    }
    let mut right = true;
    for remainder in 0..1_000 {
        for quotient in 0..1_000 {
            right = right && agenda.pop() == Some(1_000 * quotient + remainder);
        }
    }
    Ok(right && agenda.pop().is_none())
}

/// Adds the orders in which jobs leave.
fn write_orders(alloc: Global, out: &mut String) -> Result<(), AllocError> {
    let delay = |job: &Job, now: u64| now + job.delay() as u64;
    for jobs in ROWS {
        write!(out, "jobs {jobs:?} = ")?;
        write_order(alloc, delay, jobs, out)?;
        out.push('\n')?;
    }
    out.push_str("a loop of jobs = ")?;
    write_loop(alloc, delay, out)?;
    out.push_str("\nroom for jobs = ")?;
    write_counts(alloc, delay, out)?;
    out.push('\n')
}

/// Adds the orders in which jobs leave, and whether a million commands leave in order.
pub fn write_agendas(alloc: Global, out: &mut String) -> Result<(), AllocError> {
    write_orders(alloc, out)?;
    let is_right = million_in_order(alloc, |k: &u32, now: u64| now + (*k % 1000) as u64)?;
    writeln!(out, "a million in order = {is_right}")
}
