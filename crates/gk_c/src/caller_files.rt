//! The files of a call, as a system that the program reads.
ghost use Rattle.std.specs.Prelude.{◌≡◌, ◌≤◌, map, IfOk, option_map, vec_len};
ghost use Rattle.gk_gherkin.specs.Lines.{limit};
ghost use Rattle.gk_program.specs.Files.{bytes_or_fault};
ghost use Rattle.gk_c.specs.CallerFiles as spec;
ghost use Rattle.gk_c.specs.CallerFiles.{IsIndexOf, SaysCopy, bytes_of, file_value};

use gk_gherkin::LONGEST_FILE;
use gk_io::SourceFault;
use gk_program::System;
use std::alloc::{AllocError, Global};
use std::collections::BTreeMap;
use std::marker::Model;

/// A file of the caller: its name and its bytes.
#[repr(C)]
#[derive(Clone, Copy)]
pub struct File<'a> {
    pub name: &'a [u8],
    pub bytes: &'a [u8],
}

/// The files of a call, for lookup by their names. Contracts see the files as plain values.
#[derive(Drop)]
pub struct InMemory<'a> {
    files: &'a [File<'a>],
    // The bytes of the first file of each name. Without an index, a lookup goes through all files.
    index: Option<BTreeMap<&'a [u8], &'a [u8]>>,
}

impl<'a> Model for InMemory<'a> {
    ghost use Rattle.std.specs.Prelude.{List, map};
    ghost use Rattle.std.specs.Option.{ForSome};
    ghost use Rattle.gk_request.specs.Source.{SourceValue};
    ghost use Rattle.gk_c.specs.CallerFiles.{IsIndexOf, file_value};

    ghost Value = { List SourceValue };

    ghost view = { λ system. map file_value system.files.now };

    ghost invariant = { λ system.
        ForSome system.index (λ index. IsIndexOf index (map file_value system.files.now)) };
}

// Returns whether a file has this name.
fn is_named(file: &File<'_>, name: &[u8]) -> bool
    ensures { result ≡ spec.is_named name.now (file_value file.now) }
{
    file.name == name
}

// Returns the bytes of the first file of this name, if there is one.
fn first_named<'a>(files: &'a [File<'a>], name: &[u8]) -> Option<&'a [u8]>
    ensures { option_map (λ bytes. bytes.now) result
        ≡ bytes_of (map file_value files.now) name.now }
{
    for file in files {
        if is_named(file, name) {
            return Some(file.bytes);
        }
    }
    None
}

// Returns an index of some files. Of files of one name it has the first.
fn index_of<'a>(
    alloc: Global,
    files: &'a [File<'a>],
) -> Result<BTreeMap<&'a [u8], &'a [u8]>, AllocError>
    ensures { IfOk result (λ index. IsIndexOf index (map file_value files.now)) }
{
    let mut index = BTreeMap::new(alloc);
    let mut left = files.len();
    'files: while left > 0 {
        left -= 1;
        index.insert(files[left].name, files[left].bytes)?;
    }
    Ok(index)
}

impl<'a> InMemory<'a> {
    /// Returns the files of a call. If memory for an index is refused, they have none.
    pub fn new(alloc: Global, files: &'a [File<'a>]) -> InMemory<'a>
        ensures { result ≡ map file_value files.now }
    {
        InMemory {
            files,
            index: index_of(alloc, files).ok(),
        }
    }

    // Returns the bytes of the first file of this name, if there is one.
    fn named(&self, name: &[u8]) -> Option<&'a [u8]>
        ensures { option_map (λ bytes. bytes.now) result ≡ bytes_of self.now name.now }
    {
        match &self.index {
            Some(index) => index.get(name).copied(),
            None => first_named(self.files, name),
        }
    }
}

// Copies the bytes of a file.
fn copied(alloc: Global, bytes: &[u8]) -> Result<Vec<u8>, SourceFault>
    ensures copied { SaysCopy bytes.now (bytes_or_fault result) }
    ensures within { IfOk result (λ copy. vec_len copy ≤ limit) }
{
    if bytes.len() > LONGEST_FILE {
        return Err(SourceFault::TooLong);
    }
    match Vec::from_slice(alloc, bytes) {
        Ok(copy) => Ok(copy),
        Err(_) => Err(SourceFault::Memory),
    }
}

impl System for InMemory<'_> {
    ghost use Rattle.gk_c.specs.CallerFiles.{reads_first};

    ghost reads = { reads_first };

    fn read(&mut self, alloc: Global, name: &str) -> Result<Vec<u8>, SourceFault> {
        match self.named(name.as_bytes()) {
            Some(bytes) => copied(alloc, bytes),
            None => Err(SourceFault::Device),
        }
    }
}
