//! A file in memory that keeps a record of the calls which change it.

ghost use Rattle.std.specs.Prelude.{◌≡◌, true, false, refl, length, is_ok, OnOk, OnErr};
ghost use Rattle.sqlite_disk.specs.Disk.{Holds, Mixed, Cut, CountsFault};
ghost use Rattle.sqlite_disk.specs.Refusal.{finds_no_room};

use crate::fault::{Fault, call};
use sqlite_disk::{Disk, Tally, digest_of};
use std::alloc::{AllocError, Global};
use std::io;

/// A call that changes a file, or syncs it.
#[derive(Drop)]
pub enum Call {
    Write { at: usize, bytes: Vec<u8> },
    SetLen { len: usize },
    Sync,
}

/// A call, and whether it was done.
#[derive(Drop)]
pub struct Noted {
    pub call: Call,
    pub done: bool,
}

/// A file in memory: what is written is on the disk at once. A call that fails leaves it as it was, and a sync that fails makes it
/// unusable. A judge reads from the record what another disk might have left.
#[derive(Drop)]
pub struct RecordedDisk {
    bytes: Vec<u8>,
    calls: Vec<Noted>,
    fault: Fault,
    usable: bool,
    faults: u64,
    caught: u64,
}

impl RecordedDisk {
    ghost use Rattle.std.specs.Prelude.{◌≡◌, IsTrue};
    ghost use Rattle.pst_kept_files_cases.specs.Disk.{disk_bytes, disk_is_usable};

    /// A file with these bytes, none of whose calls fails.
    pub fn new(alloc: Global, bytes: Vec<u8>) -> RecordedDisk
        ensures bytes { disk_bytes result ≡ bytes.items }
        ensures usable { IsTrue (disk_is_usable result) }
    {
        RecordedDisk {
            bytes,
            calls: Vec::new(alloc),
            fault: Fault::NONE,
            usable: true,
            faults: 0,
            caught: 0,
        }
    }

    /// From now on these calls fail.
    pub fn fail(&mut self, fault: Fault)
        ensures bytes { disk_bytes self.new ≡ disk_bytes self.old }
        ensures usable { disk_is_usable self.new ≡ disk_is_usable self.old }
    {
        self.fault = fault;
    }

    /// The calls since they were last forgotten.
    pub fn calls(&self) -> &[Noted] {
        &self.calls
    }

    /// Forgets the calls so far.
    pub fn forget_calls(&mut self)
        ensures bytes { disk_bytes self.new ≡ disk_bytes self.old }
        ensures usable { disk_is_usable self.new ≡ disk_is_usable self.old }
    {
        self.calls.clear();
    }
}

impl Disk for RecordedDisk {
    ghost seen = { λ d. d.bytes.items };

    ghost may_leave = { λ d c. c ≡ d.bytes.items };

    ghost is_usable = { λ d. d.usable };

    ghost faults = { λ d. d.faults };

    ghost is_clean = { λ _. true };

    ghost tally_of = { λ d. record { caught = d.caught; refused = 0 } };

    ghost key_of = { λ _. 0 };

    ghost is_fair = { λ _ _. true };

    ghost is_mixing = { λ _. true };

    ghost fair_if_clean = { λ _ _ _. refl };

    ghost seen_may_stay = { λ _. refl };

    fn mixes(&self) -> bool {
        true
    }

    // A file in memory tells no lie, so it needs no secret.
    fn key(&self) -> u64 {
        0
    }

    fn tally(&self) -> Tally {
        Tally {
            caught: self.caught,
            refused: 0,
        }
    }

    fn may_be_used(&self) -> bool {
        self.usable
    }

    fn len(&mut self) -> io::Result<usize> {
        call(&mut self.fault, &mut self.faults)?;
        Ok(self.bytes.len())
    }

    fn read_at(&mut self, at: usize, buf: &mut [u8]) -> io::Result<()> {
        call(&mut self.fault, &mut self.faults)?;
        if at > self.bytes.len() || buf.len() > self.bytes.len() - at {
            return Err(io::ErrorKind::UnexpectedEof.into());
        }
        buf.copy_from_slice(&self.bytes[at..at + buf.len()]);
        Ok(())
    }

    fn read_checked(&mut self, key: u64, want: u64, at: usize, buf: &mut [u8]) -> io::Result<()> {
        self.read_at(at, buf)?;
        if digest_of(key, buf) != want {
            self.faults = self.faults.saturating_add(1);
            self.caught = self.caught.saturating_add(1);
            return Err(io::ErrorKind::InvalidData.into());
        }
        Ok(())
    }

    fn write_at(&mut self, at: usize, bytes: &[u8]) -> io::Result<()> {
        let outcome = call(&mut self.fault, &mut self.faults);
        let noted = note_write(&mut self.calls, at, bytes, outcome.is_ok());
        count(noted, &mut self.faults)?;
        outcome?;
        count(overwrite(&mut self.bytes, at, bytes), &mut self.faults)
    }

    fn set_len(&mut self, len: usize) -> io::Result<()> {
        let outcome = call(&mut self.fault, &mut self.faults);
        let noted = note(&mut self.calls, Call::SetLen { len }, outcome.is_ok());
        count(noted, &mut self.faults)?;
        outcome?;
        count(resize(&mut self.bytes, len), &mut self.faults)
    }

    fn sync(&mut self) -> io::Result<()> {
        self.usable = false;
        let outcome = call(&mut self.fault, &mut self.faults);
        let noted = note(&mut self.calls, Call::Sync, outcome.is_ok());
        count(noted, &mut self.faults)?;
        outcome?;
        self.usable = true;
        Ok(())
    }
}

/// Want of memory, as a failed call.
fn count(outcome: Result<(), AllocError>, faults: &mut u64) -> io::Result<()>
    ensures variant { is_ok result ≡ is_ok outcome }
    ensures kind { finds_no_room result ≡ false }
    ensures faults { CountsFault result faults.old faults.new }
{
    if outcome.is_err() {
        *faults = faults.saturating_add(1);
        return Err(io::Error::from(io::ErrorKind::OutOfMemory));
    }
    Ok(())
}

fn note(calls: &mut Vec<Noted>, call: Call, done: bool) -> Result<(), AllocError> {
    calls.push(Noted { call, done })?;
    Ok(())
}

fn note_write(
    calls: &mut Vec<Noted>,
    at: usize,
    bytes: &[u8],
    done: bool,
) -> Result<(), AllocError> {
    let mut copy = Vec::new(*calls.allocator());
    copy.extend_from_slice(bytes)?;
    note(calls, Call::Write { at, bytes: copy }, done)
}

fn resize(file: &mut Vec<u8>, len: usize) -> Result<(), AllocError>
    ensures len { OnOk result (length file.new.items ≡ len) }
    ensures others { Cut len file.old.items file.new.items }
    ensures same { OnErr result (file.new.items ≡ file.old.items) }
{
    file.resize(len, 0)
}

fn overwrite(file: &mut Vec<u8>, at: usize, bytes: &[u8]) -> Result<(), AllocError>
    ensures written { OnOk result (Holds file.new.items at bytes.now) }
    ensures mixed { Mixed at bytes.now file.old.items file.new.items }
{
    let end = at.checked_add(bytes.len()).ok_or(AllocError)?;
    if end > file.len() {
        resize(file, end)?;
    }
    file[at..end].copy_from_slice(bytes);
    Ok(())
}
