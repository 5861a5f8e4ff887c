// Files in memory beside their counts of faults.
ghost use Rattle.std.specs.Prelude.{◌≡◌, ◌≤◌, ◌<◌, ◌+◌, ◌^◌, None, Some, length, position, replicate, slice_index, string_bytes};
ghost use Rattle.std.specs.Str.{bytes_eq};
ghost use Rattle.outside.specs.FileList.{file_place, content_of, bytes_at};
ghost use Rattle.outside.specs.Internal.Counts.{raised_at};

use crate::FileList;
use crate::file_list::Entry;
use std::marker::Model;

/// Files in memory, and how often a call has failed for each name. All names that no file has are
/// counted together.
#[derive(Drop)]
pub struct CountedFiles {
    entries: Vec<Entry>,
    others: u64,
}

impl Model for CountedFiles {
    ghost use Rattle.outside.specs.Internal.Counts.{FilesAndCounts};

    ghost Value = { FilesAndCounts };

    ghost use Rattle.outside.specs.Entry.{files_of, counts_of};

    ghost view = { λ f. record {
      files = files_of f.entries.items;
      counts = counts_of f.entries.items f.others;
    } };
}

impl CountedFiles {
    ghost use Rattle.outside.specs.Entry.{files_of};

    pub fn new(files: FileList) -> Self
        ensures files { result.files ≡ files }
        ensures counts { result.counts ≡ replicate (length files + 1) 0 }
    {
        CountedFiles {
            entries: files.into_entries(),
            others: 0,
        }
    }

    pub fn len(&self) -> usize
        ensures { result ≡ length self.now.files }
    {
        self.entries.len()
    }

    /// The place of the first file of a name, or the number of files where none has it.
    pub fn first_place(&self, name: &str) -> usize
        ensures place { result ≡ file_place self.now.files name.now }
        ensures within { result ≤ length self.now.files }
        ensures found { result < length self.now.files
            → content_of self.now.files name.now ≡ Some (bytes_at self.now.files result) }
        ensures missing { length self.now.files ≤ result
            → content_of self.now.files name.now ≡ None }
    {
        find_entry(&self.entries, name).unwrap_or(self.entries.len())
    }

    /// The bytes of the file at a place.
    pub fn bytes(&self, place: usize) -> &[u8]
        requires { place < length self.now.files }
        ensures { result.now ≡ bytes_at self.now.files place }
    {
        self.entries[place].bytes.as_slice()
    }

    /// Counts one more fault of the file at a place, or of the names that no file has.
    pub fn count_fault(&mut self, place: usize)
        requires { place ≤ length self.old.files }
        ensures counted { self.new ≡ record self.old { counts = raised_at self.old.counts place } }
        ensures within { place < length self.old.counts }
        ensures fits { slice_index self.old.counts place < 2 ^ 64 }
    {
        if place < self.entries.len() {
            let entry = &mut self.entries[place];
            entry.faults = entry.faults.saturating_add(1);
        } else {
            self.others = self.others.saturating_add(1);
        }
    }
}

// Where the first entry of a name stands, if there is one.
fn find_entry(entries: &[Entry], name: &str) -> Option<usize>
    ensures { result ≡ position (λ entry. bytes_eq (string_bytes entry.name) name.now) entries.now }
{
    entries.iter().position(|entry| entry.name.as_str() == name)
}
