//! What is kept of a reply.

ghost use Rattle.std.specs.Prelude.{◌≡◌, [], IfSome, OnOk};
ghost use Rattle.pst_script.specs.Texts.{text_of};
ghost use Rattle.persist_live.specs.Standing.{printed_in};

use pst_base::NoMemory;
use pst_script::{Reply, put_reply};

/// Puts the text of a reply, if there is one, in the place of what a list holds.
///
/// # Errors
/// Where there was no memory.
pub(crate) fn put_text(text: &mut Vec<u8>, reply: &Option<Reply>) -> Result<(), NoMemory>
    ensures { OnOk result (IfSome reply.now (λ r. text.new.items ≡ text_of r)) }
{
    match reply {
        None => Ok(()),
        Some(reply) => put_reply(text, reply),
    }
}

/// The numbers that a reply printed.
pub(crate) fn printed_in(reply: &Option<Reply>) -> &[i64]
    ensures { result.now ≡ printed_in reply.now }
{
    match reply {
        Some(Reply::Version { printed, .. })
        | Some(Reply::Answer { printed })
        | Some(Reply::Trapped { printed, .. }) => printed.as_slice(),
        Some(
            Reply::Opened { .. }
            | Reply::Running { .. }
            | Reply::Finished { .. }
            | Reply::Dropped { .. }
            | Reply::BudgetSet { .. }
            | Reply::VersionList(_)
            | Reply::StatsAre(_)
            | Reply::LineStatsAre(_)
            | Reply::Refused(_),
        )
        | None => &[],
    }
}
