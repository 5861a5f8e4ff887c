//! The next command.
ghost use Rattle.std.specs.Prelude.{◌≡◌, ◌≢◌, ◌<◌, [], IfOk, OnOk};
ghost use Rattle.prover_state.specs.Internal.Standing.{IsRightState};
ghost use Rattle.prover_state.specs.Internal.Taking.{TakesNext, rest_behind};
ghost use Rattle.prover_state.specs.Internal.Advancing.{StaysRight};

use crate::command::{Command, Planned, Rest};
use crate::tables::Core;
use crate::waiting::Waiting;
use command_queue::{Entry, Weigher};
use std::alloc::AllocError;

/// What is left without the first one.
fn behind(rest: Rest) -> Rest
    requires { rest.next < rest.end }
    ensures { result ≡ rest_behind rest }
{
    Rest {
        over: rest.over,
        next: rest.next + 1,
        end: rest.end,
    }
}

impl<W: Weigher<Waiting>> Core<W> {
    /// Takes the next command, where one waits, with its number and when it is due. The next one of its loop waits in its
    /// place.
    pub fn take_next(&mut self) -> Result<Entry<Command>, AllocError>
        requires right { IsRightState self.old.tables self.old.plan }
        requires some { self.old.plan.entries ≢ [] }
        ensures takes { IfOk result (TakesNext self.old.tables self.old.plan self.new.plan) }
        ensures stays { OnOk result (StaysRight self.old self.new) }
        ensures tables { self.new.tables ≡ self.old.tables }
    {
        // The number of pushes is asked for its type: the numbers of commands are below it.
        let _pushes = self.plan.pushes();
        let entry = match self.plan.pop() {
            Some(entry) => entry,
            None => unreachable!(),
        };
        let first = entry.command.first;
        let taken = Entry {
            due: entry.due,
            number: entry.number,
            command: first,
        };
        let rest = match entry.command.rest {
            Some(rest) => rest,
            None => return Ok(taken),
        };
        if rest.next >= rest.end {
            return Ok(taken);
        }
        let next = self.tables.command_of(first, rest.over, rest.next)?;
        self.plan.put_back(Entry {
            due: entry.due,
            number: entry.number + 1,
            command: Planned {
                first: next,
                rest: Some(behind(rest)),
            },
        })?;
        Ok(taken)
    }
}
