//! The system's calls, one for each function. Nothing is known of them.

ghost use Rattle.std.specs.Prelude.{◌≡◌, None, IfOk};
ghost use Rattle.system_files.specs.Prelude.{IsKindOf};

use crate::disk::{Disk, Kind, OpenFile};
use std::alloc::Global;
use std::fs::{File, Metadata, OpenFile as _, Permissions};
use std::io::{Read, Write};
use std::random::RandomSource;
use std::rt::Files;
use std::{fs, io};

/// The disk of the system.
#[derive(Drop)]
pub struct SystemDisk<'a, R> {
    pub rt: &'a R,
}

impl<R: Files + RandomSource + AllocGlobal> Disk for SystemDisk<'_, R> {
    type File = R::File;

    ghost calls = { λ _. None };

    fn random(&mut self) -> Option<u64> {
        let mut bytes = [0; 8];
        self.rt.fill_bytes(&mut bytes).ok()?;
        Some(u64::from_le_bytes(bytes))
    }

    fn look(&mut self, name: &str) -> io::Result<Kind> {
        Ok(kind_of(&fs::symlink_metadata(self.rt, name)?))
    }

    fn follow(&mut self, name: &str) -> io::Result<Kind> {
        Ok(kind_of(&fs::metadata(self.rt, name)?))
    }

    fn resolve(&mut self, alloc: Global, name: &str) -> io::Result<String> {
        Ok(self.rt.canonicalize(alloc, name)?.into_string())
    }

    fn create_new<'n>(&mut self, name: &'n str) -> io::Result<OpenFile<'n, R::File>> {
        named(name, File::create_new(self.rt, name))
    }

    fn create<'n>(&mut self, name: &'n str) -> io::Result<OpenFile<'n, R::File>> {
        named(name, File::create(self.rt, name))
    }

    fn open<'n>(&mut self, name: &'n str) -> io::Result<OpenFile<'n, R::File>> {
        named(name, File::open(self.rt, name))
    }

    fn read(&mut self, file: &mut OpenFile<'_, R::File>, buffer: &mut [u8]) -> io::Result<usize> {
        file.file.read(buffer)
    }

    fn set_permissions(
        &mut self,
        file: &mut OpenFile<'_, R::File>,
        permissions: Permissions,
    ) -> io::Result<()> {
        file.file.set_permissions(permissions)
    }

    fn write(&mut self, file: &mut OpenFile<'_, R::File>, bytes: &[u8]) -> io::Result<usize> {
        file.file.write(bytes)
    }

    fn rename(&mut self, from: &str, to: &str) -> io::Result<()> {
        fs::rename(self.rt, from, to)
    }

    fn remove(&mut self, name: &str) -> io::Result<()> {
        fs::remove_file(self.rt, name)
    }
}

/// Returns a file that was opened, with its name.
fn named<'n, F: Drop>(name: &'n str, opened: io::Result<F>) -> io::Result<OpenFile<'n, F>>
    ensures { IfOk result (λ file. file.name.now ≡ name.now) }
{
    match opened {
        Ok(file) => Ok(OpenFile { name, file }),
        Err(error) => Err(error),
    }
}

/// Returns what there is under a name that has this metadata.
fn kind_of(found: &Metadata) -> Kind
    ensures { IsKindOf found.now result }
{
    if found.is_symlink() {
        Kind::Link
    } else if found.is_file() {
        Kind::File(found.permissions())
    } else {
        Kind::Other
    }
}
