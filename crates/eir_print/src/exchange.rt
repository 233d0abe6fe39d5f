//! The reply of an exchange.
ghost use Rattle.std.specs.Prelude.{◌≡◌, ◌++◌, ◌∷◌, [], OnOk, OnErr, length, flat_map};
ghost use Rattle.eir_print.specs.Prefixes.{AppendsPrefix};
ghost use Rattle.eir_print.specs.Replies.{stored_line, exchange_text};

use crate::words::print_counted;
use eir_term::{Memory, Text};
use std::alloc::Global;
use std::marker::Model;

/// A file that was stored, by its whole name, with the number of its rows.
#[derive(Drop)]
pub struct Stored {
    pub file: Text,
    pub rows: u64,
}

/// Files that were stored, in order.
#[derive(Drop)]
pub struct StoredFiles {
    files: Vec<Stored>,
}

impl Model for StoredFiles {
    ghost use Rattle.std.specs.Prelude.{List};
    ghost use Rattle.eir_print.specs.declared.exchange.Stored.{Stored as File};

    ghost Value = { List File };

    ghost view = { λ s. s.files.items };
}

impl StoredFiles {
    /// No file.
    pub fn new(alloc: Global) -> StoredFiles
        ensures { result ≡ [] }
    {
        StoredFiles {
            files: Vec::new(alloc),
        }
    }

    /// Puts a file behind the others.
    pub fn push(&mut self, file: Stored) -> Result<(), Memory>
        ensures ok { OnOk result (self.new ≡ self.old ++ file ∷ []) }
        ensures err { OnErr result (self.new ≡ self.old) }
    {
        self.files.push(file)?;
        Ok(())
    }

    /// The files, lent.
    pub fn as_slice(&self) -> &[Stored]
        ensures { result.now ≡ self.now }
    {
        self.files.as_slice()
    }
}

/// Appends the number of files, and each of them on a line.
pub(crate) fn print_exchange(files: &[Stored], out: &mut Text) -> Result<(), Memory>
    ensures ok { OnOk result (out.new ≡ out.old ++ exchange_text files.now) }
    ensures err { OnErr result (AppendsPrefix out.old out.new (exchange_text files.now)) }
{
    print_counted(b"exchange", files.len() as u64, out)?;
    print_files(files, out)
}

/// Appends each file on a line.
fn print_files(files: &[Stored], out: &mut Text) -> Result<(), Memory>
    ensures ok { OnOk result (out.new ≡ out.old ++ flat_map stored_line files.now) }
    ensures err { OnErr result (AppendsPrefix out.old out.new (flat_map stored_line files.now)) }
{
    for file in files {
        print_file(file, out)?;
    }
    Ok(())
}

/// Appends the name of a file and the number of its rows, on a line.
fn print_file(file: &Stored, out: &mut Text) -> Result<(), Memory>
    ensures ok { OnOk result (out.new ≡ out.old ++ stored_line file.now) }
    ensures err { OnErr result (AppendsPrefix out.old out.new (stored_line file.now)) }
{
    print_counted(file.file.bytes(), file.rows, out)
}
