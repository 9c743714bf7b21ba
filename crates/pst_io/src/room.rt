// The buffer of an input: the bytes that are held stand between two places of it.
ghost use Rattle.std.specs.Prelude.{◌≡◌, ◌<◌, ◌≤◌, ◌-◌, drop, take, vec_len, OnErr, OnOk};
ghost use Rattle.pst_io.specs.declared.room.TheConstants.{MOST_INPUT, MOST_SERVED, MOST_READ};

use std::alloc::AllocError;

/// The most bytes of one source that a reader of lines reads where it is told no other limit: 64 MiB.
pub const MOST_INPUT: usize = 67_108_864;

/// The greatest limit that a reader of lines may have: 2^62 bytes, which is more than any memory holds.
pub const MOST_SERVED: usize = 4_611_686_018_427_387_904;

/// The most bytes that one read asks a source for: 64 KiB.
pub const MOST_READ: usize = 65_536;

/// The limits in digits.
pub fn limits_in_digits()
    ensures input { MOST_INPUT ≡ 67108864 }
    ensures served { MOST_SERVED ≡ 4611686018427387904 }
    ensures read { MOST_READ ≡ 65536 }
{}

// Moves the bytes between two places to the front.
pub fn move_to_front(buffer: &mut Vec<u8>, start: usize, end: usize)
    requires ordered { start ≤ end }
    requires within { end ≤ vec_len buffer.old }
    ensures front { take (end - start) buffer.new.items ≡ take (end - start) (drop start buffer.old.items) }
    ensures len { vec_len buffer.new ≡ vec_len buffer.old }
{
    if start > 0 {
        buffer.copy_within(start..end, 0);
    }
}

// Makes room behind the first bytes, up to a limit, so many that a line of n bytes costs a copy of at most n in all.
pub fn make_room(buffer: &mut Vec<u8>, end: usize, most: usize) -> Result<(), AllocError>
    requires within { end ≤ vec_len buffer.old }
    requires below { end < most }
    requires most { vec_len buffer.old ≤ most }
    requires served { most ≤ MOST_SERVED }
    ensures room { OnOk result (end < vec_len buffer.new) }
    ensures front { OnOk result (take end buffer.new.items ≡ take end buffer.old.items) }
    ensures within { vec_len buffer.new ≤ most }
    ensures err { OnErr result (buffer.new.items ≡ buffer.old.items) }
{
    if end == buffer.len() {
        buffer.resize(MOST_READ.max(2 * end).min(most), 0)?;
    }
    Ok(())
}
