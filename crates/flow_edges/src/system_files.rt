ghost use Rattle.std.specs.Prelude.{◌≡◌, None};

use crate::{Files, Source, counted_fault, read_uninterrupted};
use flow_values::Fault;
use std::marker::Model;
use std::{fs, rt};

/// The files of the operating system, by path. Their contents are not observable. The value in
/// contracts is the count of faults.
#[derive(Drop)]
pub struct SystemFiles<'r, R: rt::Files> {
    rt: &'r R,
    /// The open file, if any.
    file: Option<R::File>,
    faults: u64,
}

impl<'r, R: rt::Files> Model for SystemFiles<'r, R> {
    ghost use Rattle.std.specs.Prelude.{ℕ};

    ghost Value = { ℕ };

    ghost view = { λ files. files.faults };
}

impl<'r, R: rt::Files> SystemFiles<'r, R> {
    /// No file is open, and no call has failed.
    pub fn new(rt: &'r R) -> SystemFiles<'r, R>
        ensures { result ≡ 0 }
    {
        SystemFiles {
            rt,
            file: None,
            faults: 0,
        }
    }
}

impl<'r, R: rt::Files> Source for SystemFiles<'r, R> {
    ghost left = { λ _. None };

    ghost faults = { λ files. files };

    /// Reads once from the open file, and again while a signal interrupts the call. An I/O error is
    /// a `Fault`. With no file open, the input is empty.
    fn read(&mut self, buffer: &mut [u8]) -> Result<usize, Fault> {
        let Some(file) = self.file.as_mut() else {
            return Ok(0);
        };
        match read_uninterrupted(file, buffer) {
            Ok(count) => Ok(count),
            Err(_) => Err(counted_fault(&mut self.faults)),
        }
    }
}

impl<'r, R: rt::Files> Files for SystemFiles<'r, R> {
    ghost contents = { λ _ _. None };

    /// Opens the file at this path for reading, and closes the previous one. An I/O error is a
    /// `Fault`.
    fn open(&mut self, name: &str) -> Result<(), Fault> {
        match fs::open(self.rt, name) {
            Ok(file) => {
                self.file = Some(file);
                Ok(())
            }
            Err(_) => Err(counted_fault(&mut self.faults)),
        }
    }
}
