//! The lines of the script.
ghost use Rattle.std.specs.Prelude.{◌≡◌, ◌+◌, ◌*◌, ◌^◌, ◌<◌, ◌≤◌, ◌++◌, OnOk};
ghost use Rattle.pst_cli_bench.specs.Script.{key, path_line, branch_line, count_line, key_line};

use pst_base::{NoMemory, put_number_between};

/// The keys are below this number.
const KEYS: u64 = 1_000;

/// Branches begin at the versions of the path whose numbers are multiples of this one.
pub(crate) const SPACING: u32 = 100;

/// The key with this index, for the number of the bench.
fn key(number: u64, index: u32) -> u64
    ensures { result ≡ key number index }
{
    (number % KEYS + u64::from(index)) % KEYS
}

/// Puts the line that makes a version of the path.
pub(crate) fn push_path_line(text: &mut Vec<u8>, number: u64, version: u32) -> Result<(), NoMemory>
    requires { 1 ≤ version }
    ensures { OnOk result (text.new.items ≡ text.old.items ++ path_line number version) }
{
    put_number_between(text, b"run ", version - 1, b"")?;
    if version % 4 == 0 {
        text.extend_from_slice(b" move\n")
    } else {
        put_number_between(text, b" insert ", key(number, version), b"\n")
    }
}

/// Puts the line that makes a branch.
pub(crate) fn push_branch_line(text: &mut Vec<u8>, number: u64, branch: u32) -> Result<(), NoMemory>
    requires { 100 * branch < 2 ^ 32 }
    ensures { OnOk result (text.new.items ≡ text.old.items ++ branch_line number branch) }
{
    put_number_between(text, b"run ", SPACING * branch, b"")?;
    put_number_between(text, b" set ", key(number, branch), b"\n")
}

/// Puts the query that counts the records where a branch begins.
pub(crate) fn push_count_line(text: &mut Vec<u8>, branch: u32) -> Result<(), NoMemory>
    requires { 100 * branch < 2 ^ 32 }
    ensures { OnOk result (text.new.items ≡ text.old.items ++ count_line branch) }
{
    put_number_between(text, b"query ", SPACING * branch, b" count\n")
}

/// Puts the query for the first key of a branch, behind a path of so many versions.
pub(crate) fn push_key_line(text: &mut Vec<u8>, size: u32, branch: u32) -> Result<(), NoMemory>
    requires { size + branch < 2 ^ 32 }
    ensures { OnOk result (text.new.items ≡ text.old.items ++ key_line size branch) }
{
    put_number_between(text, b"query ", size + branch, b" key\n")
}
