//! Replies with the greatest counts.

use pst_base::{Counts, NoMemory};
use pst_script::{Reply, reply_text, written_one_way};

const GREATEST: Counts = Counts {
    records: u64::MAX,
    pointer_writes: u64::MAX,
    value_writes: 0,
};

/// Seven times the greatest count is the bound of a tree, and twice that count the bound of a line.
const TREE: &[u8] =
    b"records 18446744073709551615 pointers 18446744073709551615 values 0 bound 129127208515966861305\n";

const LINE: &[u8] =
    b"records 18446744073709551615 pointers 18446744073709551615 values 0 bound 36893488147419103230\n";

#[test]
fn bounds_go_beyond_64_bits(rt: HostRuntime) -> Result<(), NoMemory> {
    let alloc = rt.alloc();
    let text = reply_text(alloc, &Reply::StatsAre(GREATEST))?;
    assert!(rt; text.as_slice() == TREE);
    let text = reply_text(alloc, &Reply::LineStatsAre(GREATEST))?;
    assert!(rt; text.as_slice() == LINE);
    Ok(())
}

#[test]
fn commands_are_written_in_one_way(rt: HostRuntime) {
    written_one_way();
}
