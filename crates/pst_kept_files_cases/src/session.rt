//! Two files, and the store in them while it is open.

ghost use Rattle.std.specs.Prelude.{◌≡◌, ◌<◌, ◌^◌, length, IfOk, IfSome, IsTrue};
ghost use Rattle.pst_kept_text.specs.Text.{IsPlain};
ghost use Rattle.pst_kept_files_cases.specs.Ready.{IsReady};

use crate::command::Command;
use crate::disk::RecordedDisk;
use crate::error::CaseError;
use crate::fault::Fault;
use crate::told::{write_calls, write_found};
use pst_kept_files::{Kept, Opened, Role, append, checkpoint, create, open};
use pst_kept_text::END;
use sqlite_disk::Disk;
use std::alloc::Global;
use std::io::{self, Write};

/// The most bytes of an image.
const MOST_IMAGE: usize = 1 << 60;

/// What a line answered.
#[derive(Drop)]
pub enum Found {
    Nothing,
    Store(Opened),
}

/// Two files, and what is known of the store in them while it is open.
#[derive(Drop)]
pub struct Session {
    one: RecordedDisk,
    two: RecordedDisk,
    kept: Option<Kept>,
}

/// Whether no byte is zero or ends a group.
fn is_plain(bytes: &[u8]) -> bool
    ensures { IsTrue result → IsPlain bytes.now }
{
    !bytes.contains(&0) && !bytes.contains(&END)
}

impl Session {
    /// Two empty files.
    pub fn new(alloc: Global) -> Session
        ensures ready { IsReady ⟦<RecordedDisk as Disk>⟧ result.one result.two result.kept }
    {
        Session {
            one: RecordedDisk::new(alloc, Vec::new(alloc)),
            two: RecordedDisk::new(alloc, Vec::new(alloc)),
            kept: None,
        }
    }

    /// Performs a line of text, and writes what it answered and the calls of each file since the line before.
    pub fn answer<W: Write + Drop>(
        &mut self,
        alloc: Global,
        line: &str,
        out: &mut W,
    ) -> io::Result<()>
        requires ready { IsReady ⟦<RecordedDisk as Disk>⟧ self.old.one self.old.two self.old.kept }
        ensures ready { IsReady ⟦<RecordedDisk as Disk>⟧ self.new.one self.new.two self.new.kept }
    {
        let answered = match Command::parse(alloc, line) {
            Ok(command) => self.perform(alloc, command),
            Err(error) => Err(error),
        };
        match answered {
            Ok(found) => write_found(out, &found)?,
            Err(error) => writeln!(out, "no: {error}")?,
        }
        self.write_calls(out)
    }

    /// Performs a line.
    fn perform(&mut self, alloc: Global, command: Command) -> Result<Found, CaseError>
        requires ready { IsReady ⟦<RecordedDisk as Disk>⟧ self.old.one self.old.two self.old.kept }
        ensures ready { IsReady ⟦<RecordedDisk as Disk>⟧ self.new.one self.new.two self.new.kept }
    {
        match command {
            Command::Files { one, two } => {
                self.kept = None;
                self.one = RecordedDisk::new(alloc, one);
                self.two = RecordedDisk::new(alloc, two);
            }
            Command::Fail { role, fault } => self.fail(role, fault),
            Command::Create { image } => self.create(alloc, &image)?,
            Command::Open => return self.open(alloc),
            Command::Append { commands } => self.append(alloc, &commands)?,
            Command::Checkpoint { image } => self.checkpoint(alloc, &image)?,
        }
        Ok(Found::Nothing)
    }

    /// From now on these calls of a file fail.
    fn fail(&mut self, role: Role, fault: Fault)
        requires ready { IsReady ⟦<RecordedDisk as Disk>⟧ self.old.one self.old.two self.old.kept }
        ensures ready { IsReady ⟦<RecordedDisk as Disk>⟧ self.new.one self.new.two self.new.kept }
    {
        match role {
            Role::First => self.one.fail(fault),
            Role::Second => self.two.fail(fault),
        }
    }

    fn create(&mut self, alloc: Global, image: &[u8]) -> Result<(), CaseError>
        ensures ready { IsReady ⟦<RecordedDisk as Disk>⟧ self.new.one self.new.two self.new.kept }
    {
        self.kept = None;
        if !self.one.may_be_used() || !self.two.may_be_used() {
            return Err(CaseError::NotOpen);
        }
        if image.len() > MOST_IMAGE {
            return Err(CaseError::NotAllowed);
        }
        let kept = create(alloc, &mut self.one, &mut self.two, image)?;
        self.kept = Some(kept);
        Ok(())
    }

    fn open(&mut self, alloc: Global) -> Result<Found, CaseError>
        ensures ready { IsReady ⟦<RecordedDisk as Disk>⟧ self.new.one self.new.two self.new.kept }
    {
        self.kept = None;
        if !self.one.may_be_used() || !self.two.may_be_used() {
            return Err(CaseError::NotOpen);
        }
        let opened = open(alloc, &mut self.one, &mut self.two)?;
        self.kept = Some(opened.kept);
        Ok(Found::Store(opened))
    }

    fn append(&mut self, alloc: Global, commands: &[u8]) -> Result<(), CaseError>
        requires ready { IsReady ⟦<RecordedDisk as Disk>⟧ self.old.one self.old.two self.old.kept }
        ensures ready { IsReady ⟦<RecordedDisk as Disk>⟧ self.new.one self.new.two self.new.kept }
    {
        let Some(mut kept) = self.kept else {
            return Err(CaseError::NotOpen);
        };
        if !is_plain(commands) {
            return Err(CaseError::NotAllowed);
        }
        self.kept = None;
        append(alloc, &mut kept, &mut self.one, &mut self.two, commands)?;
        self.kept = Some(kept);
        Ok(())
    }

    fn checkpoint(&mut self, alloc: Global, image: &[u8]) -> Result<(), CaseError>
        requires ready { IsReady ⟦<RecordedDisk as Disk>⟧ self.old.one self.old.two self.old.kept }
        ensures ready { IsReady ⟦<RecordedDisk as Disk>⟧ self.new.one self.new.two self.new.kept }
    {
        let Some(mut kept) = self.kept else {
            return Err(CaseError::NotOpen);
        };
        if image.len() > MOST_IMAGE {
            return Err(CaseError::NotAllowed);
        }
        self.kept = None;
        checkpoint(alloc, &mut kept, &mut self.one, &mut self.two, image)?;
        self.kept = Some(kept);
        Ok(())
    }

    /// Writes the calls of each file since this was last asked.
    fn write_calls<W: Write + Drop>(&mut self, out: &mut W) -> io::Result<()>
        requires ready { IsReady ⟦<RecordedDisk as Disk>⟧ self.old.one self.old.two self.old.kept }
        ensures ready { IsReady ⟦<RecordedDisk as Disk>⟧ self.new.one self.new.two self.new.kept }
    {
        write_calls(out, "one", self.one.calls())?;
        write_calls(out, "two", self.two.calls())?;
        self.one.forget_calls();
        self.two.forget_calls();
        Ok(())
    }
}
