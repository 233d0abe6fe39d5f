//! A shelf in memory that never fails.
ghost use Rattle.std.specs.Prelude.{◌≡◌, [], Some, IfOk, OnErr, OnOk, bytes_eq, option_map, position};
ghost use Rattle.eir_io.specs.Files.{SameFiles, with_file};
ghost use Rattle.eir_io.specs.Shelves.{file_in};

use crate::{LoadStop, Shelf, Stop};
use eir_term::{Memory, Text};
use std::alloc::Global;
use std::marker::Model;

/// A name and the bytes of its file.
#[derive(Drop)]
struct StoredFile {
    name: Text,
    bytes: Vec<u8>,
}

impl Model for StoredFile {
    ghost use Rattle.std.specs.Prelude.{ℕ, List};

    ghost Value = { List ℕ × List ℕ };

    ghost view = { λ file. (file.name, file.bytes.items) };
}

impl StoredFile {
    fn make(alloc: Global, name: &Text, bytes: &[u8]) -> Result<StoredFile, Memory>
        ensures { IfOk result (λ file. file ≡ (name.now, bytes.now)) }
    {
        Ok(StoredFile {
            name: Text::make(alloc, name.bytes())?,
            bytes: bytes.to_vec(alloc)?,
        })
    }
}

/// The place of the file of that name.
fn place_of(files: &[StoredFile], name: &Text) -> Option<usize>
    ensures { result ≡ position (λ file. bytes_eq file.0 name.now) files.now }
{
    let name = name.bytes();
    files.iter().position(|file| file.name.bytes() == name)
}

/// Keeps files, without fail while there is memory.
#[derive(Drop)]
pub struct SureShelf {
    alloc: Global,
    files: Vec<StoredFile>,
}

impl Model for SureShelf {
    ghost use Rattle.std.specs.Prelude.{ℕ, List};

    ghost Value = { List (List ℕ × List ℕ) };

    ghost view = { λ s. s.files.items };
}

impl SureShelf {
    /// A shelf with no file.
    pub fn new(alloc: Global) -> SureShelf
        ensures { result ≡ [] }
    {
        SureShelf {
            alloc,
            files: Vec::new(alloc),
        }
    }

    /// The file of that name, lent.
    pub fn file(&self, name: &Text) -> Option<&[u8]>
        ensures { option_map (λ bytes. bytes.now) result ≡ file_in self.now name.now }
    {
        let place = place_of(&self.files, name)?;
        Some(&self.files[place].bytes)
    }

    /// Makes these bytes the file of that name, as `store` does, outside a run.
    pub fn put(&mut self, name: &Text, bytes: &[u8]) -> Result<(), Memory>
        ensures ok { OnOk result (SameFiles (file_in self.new) (with_file (file_in self.old) name.now bytes.now)) }
        ensures err { OnErr result (self.new ≡ self.old) }
    {
        let file = StoredFile::make(self.alloc, name, bytes)?;
        match place_of(&self.files, name) {
            Some(place) => self.files[place] = file,
            None => self.files.push(file)?,
        }
        Ok(())
    }
}

impl Shelf for SureShelf {
    ghost files = { λ s. Some (file_in s) };

    ghost faults = { λ _. 0 };

    fn load(&mut self, name: &Text, limit: u64) -> Result<Vec<u8>, LoadStop> {
        match self.file(name) {
            None => Err(LoadStop::Missing),
            Some(bytes) if bytes.len() as u64 > limit => Err(LoadStop::TooLong),
            Some(bytes) => Ok(bytes.to_vec(self.alloc)?),
        }
    }

    fn store(&mut self, name: &Text, bytes: &[u8]) -> Result<(), Stop> {
        self.put(name, bytes)?;
        Ok(())
    }
}
