//! The trait `Files` over the files of the operating system.

ghost use Rattle.std.specs.Prelude.{◌≡◌, ◌≤◌, None, is_some};
ghost use Rattle.gx_outside.specs.Faults.{FaultCounted};

use gx_outside::{Failed, Files};
use std::io::Read;
use std::{fs, rt};

/// The files that the operating system has, by their paths. Their contents are unknown to
/// contracts. Faults are counted, and an absent file is one.
#[derive(Drop)]
pub struct DiskFiles<'a, R: rt::Files>
where
    R::File: Drop,
{
    rt: &'a R,
    open_file: Option<R::File>,
    faults: u64,
}

impl<'a, R: rt::Files> DiskFiles<'a, R>
where
    R::File: Drop,
{
    /// All files of the system, none open.
    pub fn new(rt: &'a R) -> Self
        ensures starts_closed { result.open_file ≡ None }
        ensures no_faults_yet { result.faults ≡ 0 }
    {
        DiskFiles {
            rt,
            open_file: None,
            faults: 0,
        }
    }

    // Counts a fault.
    fn fault(&mut self) -> Failed
        ensures fault_counted { FaultCounted self.old.faults self.new.faults }
        ensures faults_only_rise { self.old.faults ≤ self.new.faults }
        ensures file_kept { self.new.open_file ≡ self.old.open_file }
    {
        self.faults = self.faults.saturating_add(1);
        Failed
    }
}

impl<R: rt::Files> Files for DiskFiles<'_, R>
where
    R::File: Drop,
{
    ghost contents = { λ _. None };

    ghost rest = { λ _. None };

    ghost is_open = { λ s. is_some s.open_file };

    ghost faults = { λ s. s.faults };

    ghost knows_rest = { λ s known opened. known };

    fn open(&mut self, name: &str) -> Result<(), Failed> {
        self.open_file = None;
        match fs::open(self.rt, name) {
            Ok(file) => {
                self.open_file = Some(file);
                Ok(())
            }
            Err(_) => Err(self.fault()),
        }
    }

    fn read(&mut self, buf: &mut [u8]) -> Result<usize, Failed> {
        match &mut self.open_file {
            Some(file) => match file.read(buf) {
                Ok(count) => Ok(count),
                Err(_) => Err(self.fault()),
            },
            None => unreachable!(),
        }
    }
}
