//! Scripts that both are driven through.

ghost use Rattle.std.specs.Prelude.{OnOk};
ghost use Rattle.pst_engine_cases.specs.Twins.{CanAnswer};

use crate::forms::Forms;
use crate::lines::next_line;
use crate::twins::Twins;
use pst_base::NoMemory;
use pst_engine_testing::{Random, Trouble};
use pst_versions::VersionedHeap;
use std::alloc::Global;

/// What stands before each line of a reply in a story: a script with the replies to its lines.
const MARK: &[u8] = b"=> ";

/// The lines of a text, without the byte that ends each.
fn lines_of(alloc: Global, text: &[u8]) -> Result<Vec<&[u8]>, NoMemory> {
    text.split(|byte| *byte == b'\n').collect(alloc)
}

/// Gives both so many lines that are made up on the way, and keeps the forms of the replies. Each line has to be answered
/// alike.
pub(crate) fn drive<H: VersionedHeap>(
    alloc: Global,
    twins: &mut Twins<H>,
    random: &mut Random,
    forms: &mut Forms,
    lines: u32,
) -> Result<(), Trouble>
    requires { CanAnswer twins.old.code twins.old.engine (H.state twins.old.heap) twins.old.program twins.old.replayer }
    ensures { OnOk result (CanAnswer twins.new.code twins.new.engine (H.state twins.new.heap) twins.new.program twins.new.replayer) }
{
    for _ in 0..lines {
        let line = next_line(alloc, random, twins)?;
        if let Some(text) = twins.reply(alloc, line.as_bytes())? {
            forms.keep(alloc, text.as_slice())?;
        }
    }
    Ok(())
}

/// Puts a line, and behind it the lines of the reply to it.
fn put(line: &[u8], reply: &[u8], told: &mut Vec<u8>) -> Result<(), NoMemory> {
    told.extend_from_slice(line)?;
    told.push(b'\n')?;
    for line in reply.split(|byte| *byte == b'\n') {
        if !line.is_empty() {
            told.extend_from_slice(MARK)?;
            told.extend_from_slice(line)?;
            told.push(b'\n')?;
        }
    }
    Ok(())
}

/// Gives both the lines of a story that are no replies, and tells it anew with the replies that they give.
pub(crate) fn tell_anew<H: VersionedHeap>(
    alloc: Global,
    twins: &mut Twins<H>,
    story: &str,
) -> Result<Vec<u8>, Trouble>
    requires { CanAnswer twins.old.code twins.old.engine (H.state twins.old.heap) twins.old.program twins.old.replayer }
    ensures { OnOk result (CanAnswer twins.new.code twins.new.engine (H.state twins.new.heap) twins.new.program twins.new.replayer) }
{
    let mut told = Vec::new(alloc);
    let lines: Vec<&[u8]> = lines_of(alloc, story.as_bytes())?;
    for line in &lines {
        if let Some(reply) = twins.reply(alloc, line)? {
            put(line, reply.as_slice(), &mut told)?;
        }
    }
    Ok(told)
}
