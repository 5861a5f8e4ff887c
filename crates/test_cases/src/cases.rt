//! Cases from a text. A line that is empty or begins with `%` is passed over.

use crate::case::Case;
use anyhow::{Context, bail};
use std::alloc::Global;

/// Cases over the same files, beside those of each.
#[derive(Drop)]
pub struct Group {
    pub common: Case,
    pub cases: Vec<Case>,
}

impl Group {
    fn new(alloc: Global) -> anyhow::Result<Group> {
        Ok(Group {
            common: Case::new(alloc, "common")?,
            cases: Vec::new(alloc),
        })
    }

    fn read_line(&mut self, alloc: Global, line: &str) -> anyhow::Result<()> {
        if let Some(name) = line.strip_prefix("case ") {
            self.cases.push(Case::new(alloc, name)?)?;
            return Ok(());
        }
        match self.cases.last_mut() {
            Some(case) => case.read_line(line),
            None => self.common.read_line(line),
        }
    }
}

/// Takes a line: the line `common` begins a group, and each other one is one of the last group.
fn read_line(alloc: Global, groups: &mut Vec<Group>, line: &str) -> anyhow::Result<()> {
    if line.is_empty() || line.starts_with('%') {
        return Ok(());
    }
    if line == "common" {
        groups.push(Group::new(alloc)?)?;
        return Ok(());
    }
    match groups.last_mut() {
        Some(group) => group.read_line(alloc, line),
        None => bail!("a line stands before a group"),
    }
}

/// The groups of a text.
pub fn groups(alloc: Global, text: &str) -> anyhow::Result<Vec<Group>> {
    let mut groups = Vec::new(alloc);
    groups.push(Group::new(alloc)?)?;
    for (i, line) in text.split('\n').enumerate() {
        let number = i.saturating_add(1);
        read_line(alloc, &mut groups, line).context(format_args!("line {number}"))?;
    }
    Ok(groups)
}
