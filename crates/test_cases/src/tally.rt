//! The run of files of cases.

use crate::cases::{Group, groups};
use crate::run::difference;
use anyhow::{Context, bail};
use outside::{Bytes, Files, read_whole};
use std::alloc::Global;
use std::str;

/// How many bytes a file of cases has at most.
const MAX_BYTES: usize = 16_777_216;

/// How many cases were run, and how many of these ended otherwise than they say.
#[derive(Clone, Copy)]
pub struct Tally {
    pub cases: u64,
    pub differences: u64,
}

fn read<F: Files>(alloc: Global, files: &mut F, name: &str) -> anyhow::Result<Bytes> {
    let Ok(bytes) = read_whole(alloc, files, name, MAX_BYTES) else {
        bail!("{name} can't be read");
    };
    Ok(bytes)
}

fn groups_in(alloc: Global, name: &str, bytes: &[u8]) -> anyhow::Result<Vec<Group>> {
    groups(alloc, str::from_utf8(bytes)?).context(format_args!("{name}"))
}

impl Tally {
    pub fn new() -> Tally {
        Tally {
            cases: 0,
            differences: 0,
        }
    }

    fn run_group(
        &mut self,
        alloc: Global,
        name: &str,
        group: &Group,
        told: &mut String,
    ) -> anyhow::Result<()> {
        for case in &group.cases {
            self.cases = self.cases.saturating_add(1);
            if let Some(ended) = difference(alloc, &group.common, case)? {
                self.differences = self.differences.saturating_add(1);
                told.push_str(format!(in alloc; "{name}: {ended}\n")?.as_str())?;
            }
        }
        Ok(())
    }

    fn run_groups(
        &mut self,
        alloc: Global,
        name: &str,
        groups: &[Group],
    ) -> anyhow::Result<String> {
        let mut told = String::new(alloc);
        for group in groups {
            self.run_group(alloc, name, group, &mut told)?;
        }
        Ok(told)
    }

    /// Runs the cases of a file, and tells of each that ends otherwise than it says.
    pub fn run_file<F: Files>(
        &mut self,
        alloc: Global,
        files: &mut F,
        name: &str,
    ) -> anyhow::Result<String> {
        let bytes = read(alloc, files, name)?;
        let groups = groups_in(alloc, name, bytes.as_slice())?;
        self.run_groups(alloc, name, groups.as_slice())
    }
}
