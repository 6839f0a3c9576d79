//! A case: words, files and faults of the outside, and what is wanted of them.
ghost use Rattle.std.specs.Prelude.{◌≡◌, ◌↔◌, IsTrue, IfSome};

use crate::content::{Content, Named};
use ras_cli::verify_quiet;
use ras_outside::{MemShelf, MemSink};
use std::alloc::{AllocError, Global};
use std::thread::Threads;

/// How many bytes of output a case has room for beyond those that are wanted.
const ROOM: usize = 1 << 16;

/// Words, the files that are held, and which loads and puts fail.
#[derive(Drop)]
pub struct Setting<'a> {
    pub words: Vec<&'a str>,
    pub files: Vec<Named<'a>>,
    pub loads: Vec<u64>,
    pub puts: Vec<(u64, u64)>,
}

/// What is wanted of a case, or what came: a status and the output, where it is compared.
#[derive(Drop)]
pub struct End {
    pub status: u8,
    pub output: Option<Vec<u8>>,
}

impl End {
    /// Whether this end is the one that is wanted.
    pub fn is_as(&self, wanted: &End) -> bool
        ensures { IsTrue result ↔ ((self.now.status ≡ wanted.now.status) × IfSome wanted.now.output (λ bytes. IfSome self.now.output (λ came. came.items ≡ bytes.items))) }
    {
        self.status == wanted.status
            && match (&self.output, &wanted.output) {
                (Some(came), Some(wanted)) => came.as_slice() == wanted.as_slice(),
                _ => true,
            }
    }
}

impl<'a> Setting<'a> {
    pub fn new(alloc: Global) -> Setting<'a> {
        Setting {
            words: Vec::new(alloc),
            files: Vec::new(alloc),
            loads: Vec::new(alloc),
            puts: Vec::new(alloc),
        }
    }

    /// The place that is marked in the file that was named last, or 0.
    pub fn place(&self) -> usize {
        match self.files.last() {
            Some(file) => file.content.mark.unwrap_or(0),
            None => 0,
        }
    }

    /// Holds a file in place of an earlier one of its name.
    pub fn hold(&mut self, name: &'a str, content: Content) -> Result<(), AllocError> {
        self.files.retain(|file| file.name != name);
        self.files.push(Named { name, content })?;
        Ok(())
    }

    fn words(&self, alloc: Global) -> Result<Vec<String>, AllocError> {
        let mut words = Vec::new(alloc);
        for word in &self.words {
            words.push(String::from_str(alloc, word)?)?;
        }
        Ok(words)
    }

    fn shelf(&self, alloc: Global) -> Result<MemShelf, AllocError> {
        let mut files = Vec::new(alloc);
        for file in &self.files {
            files.push((
                String::from_str(alloc, file.name)?,
                Vec::from_slice(alloc, &file.content.bytes)?,
            ))?;
        }
        Ok(MemShelf::new(files, Vec::from_slice(alloc, &self.loads)?))
    }

    /// Carries out the words over the files, with this many bytes of output wanted.
    pub fn end<R: Threads + Sync>(
        &self,
        rt: &R,
        alloc: Global,
        wanted: usize,
    ) -> Result<End, AllocError> {
        let words = self.words(alloc)?;
        let mut shelf = self.shelf(alloc)?;
        let puts = Vec::from_slice(alloc, &self.puts)?;
        let mut out = MemSink::new(alloc, wanted.saturating_add(ROOM), puts)?;
        let status = verify_quiet(rt, alloc, &words, &mut shelf, &mut out);
        let output = Some(Vec::from_slice(alloc, out.written())?);
        Ok(End { status, output })
    }
}
