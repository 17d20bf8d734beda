// Adding files to an archive on disk. The new archive is written whole to a file of its own, which then takes the archive's name; that
// file's name is the archive's with .new behind it, and whoever makes it is the only one who adds.

ghost use Rattle.std.specs.Prelude.{◌≡◌, ◌++◌, ◌≤◌, IfOk, codes, length};
ghost use Rattle.depot.specs.declared.store.TheConstants.{NAME_MOST};

use super::command::{self, FILES_AT};
use super::complaint::{Complaint, Fault, Of, Said, or_say};
use super::layout::ROOM;
use super::library;
use arrayvec::ArrayVec;
use std::fs::{OpenFile, OpenOptions, Permissions};
use std::io::{ErrorKind, Input, Read, Write};
use std::os::unix::fs::{MetadataExt, PermissionsExt};
use std::rt::{Env, Files};
use std::{fs, io};
use text::argument::Arguments;
use text::file::Inputs;
use text::{file, input};

// An archive in a buffer that messages are added to: how many bytes its records have, and the mode of its file, where there is one.
#[derive(Drop)]
struct Draft<'b> {
    bytes: &'b mut [u8],
    size: usize,
    mode: Option<u32>,
}

impl<'b> Draft<'b> {
    // The archive of a name; one that is missing has no records.
    fn open<R: Files>(rt: &R, archive: &[u8], bytes: &'b mut [u8]) -> Result<Draft<'b>, Fault> {
        match file::open(rt, archive) {
            Ok(old) => Draft::read(old, bytes),
            Err(why) if why.kind() == ErrorKind::NotFound => Ok(Draft {
                bytes,
                size: 0,
                mode: None,
            }),
            Err(why) => Err(Fault::System(why)),
        }
    }

    // The archive of an open file.
    fn read<F: Read + OpenFile + Drop>(old: F, bytes: &'b mut [u8]) -> Result<Draft<'b>, Fault> {
        let mode = old.metadata()?.mode();
        let size = library::opened(input::read_start_into(old, &mut *bytes)?)?.size;
        Ok(Draft {
            bytes,
            size,
            mode: Some(mode),
        })
    }

    // The bytes of a file added to the records. A call of its own, so that its buffer lies in no frame while the file's name is made.
    #[inline(never)]
    fn add<'n, R: Files + Input>(
        &mut self,
        inputs: &mut Inputs<'_, R>,
        name: &'n [u8],
    ) -> Result<(), Complaint<'n>> {
        let mut room = [0; ROOM];
        let message = inputs.read_start_into(name, &mut room).of(name)?;
        self.size = library::added(self.bytes, self.size, message).of(name)?;
        Ok(())
    }

    // Index and trailer put behind the records: so many of the bytes are the archive's then.
    fn close(&mut self) -> Result<(), Fault> {
        self.size = library::closed(self.bytes, self.size)?;
        Ok(())
    }

    // Writes the closed archive to a file, gives that the mode of the old one and brings all of it to the disk.
    fn store<F: Write + OpenFile>(&self, file: &mut F) -> io::Result<()> {
        file.write_all(&self.bytes[..self.size.min(self.bytes.len())])?;
        if let Some(mode) = self.mode {
            file.set_permissions(Permissions::from_mode(mode & 0o7777))?;
        }
        file.sync_all()
    }
}

// The longest name of an archive that is added to, and of its new file.
const NAME_MOST: usize = 4091;

const NEW_MOST: usize = 4095;

// What is added to: the archive's name, and that of the new file.
#[derive(Drop)]
pub struct Adding<'a> {
    archive: &'a [u8],
    new: ArrayVec<u8, NEW_MOST>,
}

impl<'a> Adding<'a> {
    // Adding to an archive that is a file by its name.
    #[inline(never)]
    pub fn new(archive: &'a [u8]) -> Result<Adding<'a>, Fault>
        ensures name { IfOk result (λ adding. adding.new.items ≡ archive.now ++ codes ".new") }
        ensures most { IfOk result (λ adding. length archive.now ≤ NAME_MOST) }
    {
        if archive.is_empty() || archive == b"-".as_slice() || NAME_MOST < archive.len() {
            return Err(Fault::NoName);
        }
        let mut new = ArrayVec::new();
        new.try_extend_from_slice(archive)
            .map_err(|_| Fault::NoName)?;
        new.try_extend_from_slice(b".new")
            .map_err(|_| Fault::NoName)?;
        Ok(Adding { archive, new })
    }

    // Makes the new file, where there is none of its name.
    fn create<R: Files>(&self, rt: &R) -> Result<R::File, Fault> {
        let name = file::name_of(&self.new)?;
        match OpenOptions::new()
            .write(true)
            .create_new(true)
            .open(rt, name)
        {
            Ok(new) => Ok(new),
            Err(why) if why.kind() == ErrorKind::AlreadyExists => Err(Fault::Taken),
            Err(why) => Err(Fault::System(why)),
        }
    }

    // Fills the new file with the archive that is there and the files behind its messages, up to the first that is refused. What goes wrong
    // is said here, where there is the name of its file.
    fn fill<R: Files + Input, V: Env>(
        &self,
        rt: &R,
        arguments: &Arguments<'_, V>,
        new: &mut R::File,
        err: &mut impl Write,
    ) -> Result<(), Said> {
        let mut bytes = [0; ROOM];
        let mut draft = or_say(
            Draft::open(rt, self.archive, &mut bytes).of(self.archive),
            err,
        )?;
        let mut inputs = Inputs::new(rt);
        for index in FILES_AT..arguments.len() {
            let argument = command::argument(arguments, index);
            or_say(draft.add(&mut inputs, argument.as_bytes()), err)?;
        }
        or_say(draft.close().of(self.archive), err)?;
        or_say(draft.store(new).of(&self.new), err)
    }

    // Gives the new file the archive's name. This and the next are calls of their own, for the system's names take room.
    #[inline(never)]
    fn rename(&self, rt: &impl Files) -> io::Result<()> {
        fs::rename(rt, file::name_of(&self.new)?, file::name_of(self.archive)?)
    }

    // Takes the new file off the disk.
    #[inline(never)]
    fn remove(&self, rt: &impl Files) -> io::Result<()> {
        fs::remove_file(rt, file::name_of(&self.new)?)
    }

    // Makes the new file, fills it and gives it the archive's name; whatever fails is said, and leaves no new file. Nothing tells whether
    // closing it fails: the whole file was on the disk before.
    #[inline(never)]
    pub fn run<R: Files + Input, V: Env>(
        &self,
        rt: &R,
        arguments: &Arguments<'_, V>,
        err: &mut impl Write,
    ) -> Result<(), Complaint<'_>> {
        let mut new = self.create(rt).of(&self.new)?;
        let filled = self.fill(rt, arguments, &mut new, err);
        drop(new);
        let renamed = match filled {
            Ok(()) => or_say(self.rename(rt).of(self.archive), err),
            Err(Said) => Err(Said),
        };
        match renamed {
            Ok(()) => Ok(()),
            Err(Said) => self.remove(rt).of(&self.new),
        }
    }
}
