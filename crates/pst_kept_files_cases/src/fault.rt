//! Which calls of a file fail.

ghost use Rattle.std.specs.Prelude.{◌≡◌, false};
ghost use Rattle.sqlite_disk.specs.Disk.{CountsFault};
ghost use Rattle.sqlite_disk.specs.Refusal.{finds_no_room};

use std::io;

/// Which calls of a file fail: so many pass first, then one fails, or it and each one behind it.
#[derive(Clone, Copy)]
pub struct Fault {
    pub calls_left: u64,
    pub stays: bool,
}

impl Fault {
    /// No call fails.
    pub const NONE: Fault = Fault {
        calls_left: u64::MAX,
        stays: false,
    };

    /// Whether this call fails.
    fn strikes(&mut self) -> bool {
        if self.calls_left > 0 {
            self.calls_left -= 1;
            return false;
        }
        if !self.stays {
            self.calls_left = u64::MAX;
        }
        true
    }
}

/// One call: fails where it has to, and counts that.
pub fn call(fault: &mut Fault, faults: &mut u64) -> io::Result<()>
    ensures faults { CountsFault result faults.old faults.new }
    ensures kind { finds_no_room result ≡ false }
{
    if fault.strikes() {
        *faults = faults.saturating_add(1);
        return Err(io::Error::other("the call fails"));
    }
    Ok(())
}
