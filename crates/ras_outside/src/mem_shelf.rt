ghost use Rattle.std.specs.Prelude.{◌≡◌, ◌≢◌, ◌<◌, ◌≤◌, Some, IfOk, IsTrue, false, vec_len, length};
ghost use Rattle.std.specs.Option.{option_copied};
ghost use Rattle.ras_outside.specs.Told.{told_of, HoldsMoreThan};
ghost use Rattle.ras_outside.specs.MemShelf.{entries_of, content_under};

use crate::shelf::{LoadFault, Shelf};
use std::alloc::Global;
use std::marker::Model;

/// Files in memory, for tests. It tells all.
#[derive(Drop)]
pub struct MemShelf {
    files: Vec<(String, Vec<u8>)>,
    failing: Vec<u64>,
    calls: u64,
    faults: u64,
}

impl Model for MemShelf {
    ghost use Rattle.ras_outside.specs.MemShelf.{ShelfState, entries_of};

    ghost Value = { ShelfState };

    ghost view = { λ s. record {
      files = entries_of s.files.items;
      failing = s.failing.items;
      calls = s.calls;
      faults = s.faults;
    } };
}

impl MemShelf {
    /// A shelf of these files, by name; of two of one name the first counts.
    /// `failing` lists the loads that fail, counted from 1.
    pub fn new(files: Vec<(String, Vec<u8>)>, failing: Vec<u64>) -> MemShelf
        ensures { result ≡ record {
          files = entries_of files.items;
          failing = failing.items;
          calls = 0;
          faults = 0;
        } }
    {
        MemShelf {
            files,
            failing,
            calls: 0,
            faults: 0,
        }
    }
}

impl Shelf for MemShelf {
    ghost use Rattle.ras_outside.specs.MemShelf.{load_fails, after_load};

    ghost told = { λ s name. told_of (content_under s.files name) };

    ghost faults = { λ s _. s.faults };

    fn load(&mut self, alloc: Global, name: &str, most: u64) -> Result<Vec<u8>, LoadFault>
        ensures after { self.new ≡ after_load self.old name.now }
        ensures grows { self.old.faults ≤ self.new.faults }
        ensures failed { result ≡ Err LoadFault.Failed → IsTrue (load_fails self.old name.now) }
        ensures reads { result ≢ Err LoadFault.Failed → load_fails self.old name.now ≡ false }
        ensures within { IfOk result (λ bytes. vec_len bytes ≤ most) }
        ensures bytes { IfOk result (λ bytes. content_under self.old.files name.now ≡ Some bytes.items) }
        ensures too_long { result ≡ Err LoadFault.TooLong
            → HoldsMoreThan (told_of (content_under self.old.files name.now)) most }
    {
        self.calls = self.calls.saturating_add(1);
        let is_listed = self.failing.contains(&self.calls);
        match find_file(&self.files, name) {
            Some(content) if !is_listed => copy_up_to(alloc, content, most),
            _ => {
                self.faults = self.faults.saturating_add(1);
                Err(LoadFault::Failed)
            }
        }
    }
}

// The bytes of the first file of a name.
fn find_file<'a>(files: &'a [(String, Vec<u8>)], name: &str) -> Option<&'a [u8]>
    ensures { option_copied result ≡ content_under (entries_of files.now) name.now }
{
    for (file, content) in files {
        if file.as_str() == name {
            return Some(content.as_slice());
        }
    }
    None
}

fn copy_up_to(alloc: Global, content: &[u8], most: u64) -> Result<Vec<u8>, LoadFault>
    ensures read { result ≢ Err LoadFault.Failed }
    ensures within { IfOk result (λ bytes. vec_len bytes ≤ most) }
    ensures bytes { IfOk result (λ bytes. bytes.items ≡ content.now) }
    ensures too_long { result ≡ Err LoadFault.TooLong → most < length content.now }
{
    if content.len() as u64 > most {
        return Err(LoadFault::TooLong);
    }
    Vec::from_slice(alloc, content).map_err(LoadFault::Memory)
}
