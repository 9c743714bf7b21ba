//! Reading as many bytes as the sizes at the front of an input promise.

ghost use Rattle.std.specs.Prelude.{◌≡◌, ◌≤◌, ◌<◌, ◌+◌, ◌-◌, ◌*◌, drop, ℕ, [], None, Ok, Err, IfErr, OnOk, OnErr, length, true, false};
ghost use Rattle.std.specs.Int.{w64, from_be_bytes};
ghost use Rattle.std.specs.Str.{bytes_eq};
ghost use Rattle.pst_io.specs.Causes.{Rose};
ghost use Rattle.pst_io.specs.Input.{IsOver};
ghost use Rattle.pst_image_form.specs.Bytes.{magic};
ghost use Rattle.pst_image_front.specs.Front.{Promise, IsReady, HandsOn, Told, ToldNumber, IsFront, IsTooFew, body, counted, node, nodes, nothing, then_behind};

use pst_io::{Lines, LinesFault, Source};

/// How many bytes a number takes, and six numbers: the head of a node, and what stands between the text and the versions.
const NUMBER: u64 = 8;

const SIX_NUMBERS: u64 = 48;

/// How many bytes a byte of the text takes, a version, a base and a stamped value.
const BYTE: u64 = 1;

const VERSION: u64 = 32;

const BASE: u64 = 8;

const STAMP: u64 = 24;

/// What each image begins with.
const MAGIC: &[u8] = b"PSTIMG01";

/// So many parts of so many bytes each. False where the input ends before. A reader ends before more bytes than a number can tell.
fn hand_parts<S: Source>(
    lines: &mut Lines,
    source: &mut S,
    count: u64,
    size: u64,
    bytes: &mut Vec<u8>,
) -> Result<bool, LinesFault>
    requires ready { IsReady lines.old (S.left source.old) }
    ensures on { HandsOn result lines.old (S.left source.old) lines.new (S.left source.new) bytes.old.items bytes.new.items }
    ensures told { (behind : Promise) → Told result (then_behind (count * size) behind) behind bytes.old.items bytes.new.items }
    ensures whole { result ≡ Ok true → length bytes.new.items ≡ length bytes.old.items + count * size }
    ensures few { (result ≡ Ok true → ⊥) → length bytes.new.items < length bytes.old.items + count * size }
    ensures over { result ≡ Ok false → IsOver lines.new.input }
    ensures later { S.faults source.old ≤ S.faults source.new }
    ensures fault { result ≡ Err LinesFault.Failed → Rose (S.faults source.old) (S.faults source.new) }
{
    let total = count.saturating_mul(size);
    if total == 0 {
        return Ok(true);
    }
    lines.hand(source, total as usize, bytes)
}

/// The number of the last eight bytes.
fn last_number(bytes: &[u8]) -> u64
    requires { 8 ≤ length bytes.now }
    ensures { result ≡ from_be_bytes w64 (drop (length bytes.now - 8) bytes.now) }
{
    let (_, n) = bytes.split_at(bytes.len() - 8);
    u64::from_be_bytes([n[0], n[1], n[2], n[3], n[4], n[5], n[6], n[7]])
}

/// A number. None where the input ends before.
fn hand_number<S: Source>(
    lines: &mut Lines,
    source: &mut S,
    bytes: &mut Vec<u8>,
) -> Result<Option<u64>, LinesFault>
    requires ready { IsReady lines.old (S.left source.old) }
    ensures on { HandsOn result lines.old (S.left source.old) lines.new (S.left source.new) bytes.old.items bytes.new.items }
    ensures told { (still : ℕ → Promise) → ToldNumber result still bytes.old.items bytes.new.items }
    ensures over { result ≡ Ok None → IsOver lines.new.input }
    ensures later { S.faults source.old ≤ S.faults source.new }
    ensures fault { result ≡ Err LinesFault.Failed → Rose (S.faults source.old) (S.faults source.new) }
{
    match hand_parts(lines, source, 1, NUMBER, bytes) {
        Ok(true) => Ok(Some(last_number(bytes.as_slice()))),
        Ok(false) => Ok(None),
        Err(fault) => Err(fault),
    }
}

/// As many parts of a size as a number before them says.
fn hand_counted<S: Source>(
    lines: &mut Lines,
    source: &mut S,
    size: u64,
    bytes: &mut Vec<u8>,
) -> Result<bool, LinesFault>
    requires ready { IsReady lines.old (S.left source.old) }
    ensures on { HandsOn result lines.old (S.left source.old) lines.new (S.left source.new) bytes.old.items bytes.new.items }
    ensures told { (behind : Promise) → Told result (counted size behind) behind bytes.old.items bytes.new.items }
    ensures over { result ≡ Ok false → IsOver lines.new.input }
    ensures later { S.faults source.old ≤ S.faults source.new }
    ensures fault { result ≡ Err LinesFault.Failed → Rose (S.faults source.old) (S.faults source.new) }
{
    match hand_number(lines, source, bytes) {
        Ok(Some(count)) => hand_parts(lines, source, count, size, bytes),
        Ok(None) => Ok(false),
        Err(fault) => Err(fault),
    }
}

/// A node.
fn hand_node<S: Source>(
    lines: &mut Lines,
    source: &mut S,
    bytes: &mut Vec<u8>,
) -> Result<bool, LinesFault>
    requires ready { IsReady lines.old (S.left source.old) }
    ensures on { HandsOn result lines.old (S.left source.old) lines.new (S.left source.new) bytes.old.items bytes.new.items }
    ensures told { (behind : Promise) → Told result (node behind) behind bytes.old.items bytes.new.items }
    ensures over { result ≡ Ok false → IsOver lines.new.input }
    ensures later { S.faults source.old ≤ S.faults source.new }
    ensures fault { result ≡ Err LinesFault.Failed → Rose (S.faults source.old) (S.faults source.new) }
{
    match hand_parts(lines, source, 1, SIX_NUMBERS, bytes) {
        Ok(true) => {}
        Ok(false) => return Ok(false),
        Err(fault) => return Err(fault),
    }
    match hand_counted(lines, source, BASE, bytes) {
        Ok(true) => {}
        Ok(false) => return Ok(false),
        Err(fault) => return Err(fault),
    }
    hand_counted(lines, source, STAMP, bytes)
}

/// So many nodes.
fn hand_nodes<S: Source>(
    lines: &mut Lines,
    source: &mut S,
    count: u64,
    bytes: &mut Vec<u8>,
) -> Result<bool, LinesFault>
    requires ready { IsReady lines.old (S.left source.old) }
    ensures on { HandsOn result lines.old (S.left source.old) lines.new (S.left source.new) bytes.old.items bytes.new.items }
    ensures told { Told result (nodes count) nothing bytes.old.items bytes.new.items }
    ensures over { result ≡ Ok false → IsOver lines.new.input }
    ensures later { S.faults source.old ≤ S.faults source.new }
    ensures fault { result ≡ Err LinesFault.Failed → Rose (S.faults source.old) (S.faults source.new) }
{
    let mut left = count;
    'handing: while left > 0 {
        match hand_node(lines, source, bytes) {
            Ok(true) => {}
            Ok(false) => return Ok(false),
            Err(fault) => return Err(fault),
        }
        left -= 1;
    }
    Ok(true)
}

/// The text, and six numbers.
fn hand_head<S: Source>(
    lines: &mut Lines,
    source: &mut S,
    bytes: &mut Vec<u8>,
) -> Result<bool, LinesFault>
    requires ready { IsReady lines.old (S.left source.old) }
    ensures on { HandsOn result lines.old (S.left source.old) lines.new (S.left source.new) bytes.old.items bytes.new.items }
    ensures told { (behind : Promise) → Told result (counted 1 (then_behind 48 behind)) behind bytes.old.items bytes.new.items }
    ensures over { result ≡ Ok false → IsOver lines.new.input }
    ensures later { S.faults source.old ≤ S.faults source.new }
    ensures fault { result ≡ Err LinesFault.Failed → Rose (S.faults source.old) (S.faults source.new) }
{
    match hand_counted(lines, source, BYTE, bytes) {
        Ok(true) => hand_parts(lines, source, 1, SIX_NUMBERS, bytes),
        Ok(false) => Ok(false),
        Err(fault) => Err(fault),
    }
}

/// What stands behind the bytes that each image begins with: the text, six numbers, the versions and the nodes.
fn hand_body<S: Source>(
    lines: &mut Lines,
    source: &mut S,
    bytes: &mut Vec<u8>,
) -> Result<bool, LinesFault>
    requires ready { IsReady lines.old (S.left source.old) }
    ensures on { HandsOn result lines.old (S.left source.old) lines.new (S.left source.new) bytes.old.items bytes.new.items }
    ensures told { Told result body nothing bytes.old.items bytes.new.items }
    ensures over { result ≡ Ok false → IsOver lines.new.input }
    ensures later { S.faults source.old ≤ S.faults source.new }
    ensures fault { result ≡ Err LinesFault.Failed → Rose (S.faults source.old) (S.faults source.new) }
{
    match hand_head(lines, source, bytes) {
        Ok(true) => {}
        Ok(false) => return Ok(false),
        Err(fault) => return Err(fault),
    }
    match hand_counted(lines, source, VERSION, bytes) {
        Ok(true) => {}
        Ok(false) => return Ok(false),
        Err(fault) => return Err(fault),
    }
    match hand_number(lines, source, bytes) {
        Ok(Some(count)) => hand_nodes(lines, source, count, bytes),
        Ok(None) => Ok(false),
        Err(fault) => Err(fault),
    }
}

/// Whether bytes are those that each image begins with.
fn is_magic(bytes: &[u8]) -> bool
    ensures { result ≡ bytes_eq bytes.now magic }
{
    bytes == MAGIC
}

/// Reads the image at the front of an input to the end of an empty text: as many bytes as its sizes promise, and less than one read
/// beyond. Where the input ends before, that is all of it; where it does not begin as each image does, that is eight bytes.
///
/// # Errors
/// Where a read failed, more came than may be read, or there was no memory: what was handed out is less than its sizes promise.
pub fn read_front<S: Source>(
    lines: &mut Lines,
    source: &mut S,
    bytes: &mut Vec<u8>,
) -> Result<(), LinesFault>
    requires ready { IsReady lines.old (S.left source.old) }
    requires empty { bytes.old.items ≡ [] }
    ensures on { HandsOn result lines.old (S.left source.old) lines.new (S.left source.new) bytes.old.items bytes.new.items }
    ensures front { OnOk result (IsFront (IsOver lines.new.input) bytes.new.items) }
    ensures few { OnErr result (IsTooFew bytes.new.items) }
    ensures later { S.faults source.old ≤ S.faults source.new }
    ensures fault { result ≡ Err LinesFault.Failed → Rose (S.faults source.old) (S.faults source.new) }
{
    match hand_parts(lines, source, 1, NUMBER, bytes) {
        Ok(true) => {}
        Ok(false) => return Ok(()),
        Err(fault) => return Err(fault),
    }
    if !is_magic(bytes.as_slice()) {
        return Ok(());
    }
    match hand_body(lines, source, bytes) {
        Ok(true) => Ok(()),
        Ok(false) => Ok(()),
        Err(fault) => Err(fault),
    }
}
