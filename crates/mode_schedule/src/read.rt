//! A schedule's file, block by block.
ghost use Rattle.std.specs.Prelude.{◌≤◌, ◌^◌, ◌<◌, length, IfOk, IfErr, IfSome, IfNone};
ghost use Rattle.std.specs.List.{All};
ghost use Rattle.outside.specs.Lines.{lines_of};
ghost use Rattle.mode_file.specs.Given.{IsInRange};
ghost use Rattle.mode_schedule.specs.Grammar.{AreInBlock, AreSilent, IsBadBefore, StatesBlocks, most_blocks, greatest_slice};
ghost use Rattle.mode_schedule.specs.Refusals.{RefusesBlocks};
ghost use Rattle.mode_schedule.specs.Internal.Refused.{IsBadFirst};

use crate::Block;
use crate::lines::split_body;
use crate::refused::{BadLine, Cause, ScheduleRefused, bad_line};
use crate::slice::read_slice;
use mode_file::{begins_with_key, next_line, read_mode, says_nothing};
use std::alloc::Global;

/// Why a line before all blocks is bad that says something.
fn first_cause(line: &[u8]) -> Cause
    ensures { IsBadFirst line.now result }
{
    if begins_with_key(line) {
        Cause::NoSlice
    } else {
        Cause::UnknownKey
    }
}

/// The first line before all blocks that says something.
fn bad_before_blocks(bytes: &[u8]) -> Option<BadLine>
    requires length { length bytes.now ≤ 2 ^ 24 }
    requires body { AreInBlock (lines_of bytes.now) }
    ensures none { IfNone result (AreSilent (lines_of bytes.now)) }
    ensures some { IfSome result (λ bad. IsBadBefore (lines_of bytes.now) bad.line (λ line. IsBadFirst line bad.cause)) }
{
    let mut rest = bytes;
    let mut line = 0;
    while let Some(split) = next_line(rest) {
        line += 1;
        rest = split.rest;
        if !says_nothing(split.front) {
            return Some(BadLine {
                line,
                cause: first_cause(split.front),
            });
        }
    }
    None
}

/// Reads a schedule.
pub fn read_schedule(alloc: Global, bytes: &[u8]) -> Result<Vec<Block>, ScheduleRefused>
    requires { length bytes.now ≤ 2 ^ 24 }
    ensures blocks { IfOk result (λ blocks. StatesBlocks (lines_of bytes.now) blocks.items) }
    ensures some { IfOk result (λ blocks. 0 < length blocks.items) }
    ensures few { IfOk result (λ blocks. length blocks.items ≤ most_blocks) }
    ensures slices { IfOk result (λ blocks. All (λ b. (0 < b.slice) × (b.slice ≤ greatest_slice)) blocks.items) }
    ensures in_range { IfOk result (λ blocks. All (λ b. IsInRange b.mode) blocks.items) }
    ensures refused { IfErr result (RefusesBlocks (lines_of bytes.now)) }
{
    let mut found = Vec::new(alloc);
    let preface = split_body(bytes);
    if let Some(bad) = bad_before_blocks(preface.bytes) {
        return Err(ScheduleRefused::at(bad.line, bad.cause));
    }
    let mut line = preface.count;
    let mut rest = preface.rest;
    while let Some(split) = next_line(rest) {
        line += 1;
        let slice = match read_slice(split.front, found.len()) {
            Ok(slice) => slice,
            Err(cause) => return Err(ScheduleRefused::at(line, cause)),
        };
        let body = split_body(split.rest);
        let mode = match read_mode(body.bytes) {
            Ok(mode) => mode,
            Err(refused) => {
                let bad = bad_line(refused);
                return Err(ScheduleRefused::at(line + bad.line, bad.cause));
            }
        };
        found.push(Block { slice, mode })?;
        line += body.count;
        rest = body.rest;
    }
    if found.is_empty() {
        return Err(ScheduleRefused::NoSlice { line: line + 1 });
    }
    Ok(found)
}
