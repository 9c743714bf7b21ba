//! Times insertions into an order, comparisons of its places, and reads of rows. With the word `times` it does much of each
//! and prints how long that took. With no word it does less, and prints what holds alone. Both print what `checks` finds.
#![tactic(auto)]

ghost use Rattle.std.specs.Prelude.{◌≡◌, ◌<◌, ◌≤◌, length};
ghost use Rattle.pst_rows_bed.specs.Beds.{AreIn, IsReady};

mod checks;

use checks::{orders_agree, places_keep_values, sets_labels_anew, splits_eleven, splits_many};
use pst_order::{LabelOrder, Order, Pos};
use pst_rows::{Row, Stamp};
use pst_rows_bed::{
    Bed, are_reversed, compare_many, filled, find_splits, insert_behind, insert_behind_first,
    read_rows, scan_rows,
};
use std::alloc::Global;
use std::mem::size_of;
use std::rt::Env;
use std::time::{Duration, Instant};
use std::{env, io};

/// How much is done, and whether times are printed.
#[derive(Clone, Copy)]
struct Scale {
    insertions: u32,
    comparisons: u32,
    reads: u32,
    splits: u32,
    timed: bool,
}

const CHECKED: Scale = Scale {
    insertions: 10_000,
    comparisons: 10_000,
    reads: 10_000,
    splits: 100,
    timed: false,
};

const TIMED: Scale = Scale {
    insertions: 1_000_000,
    comparisons: 20_000_000,
    reads: 20_000_000,
    splits: 100_000,
    timed: true,
};

/// Whether the program was given the word `times`.
fn is_timed<R: Env + AllocGlobal>(rt: &R) -> io::Result<bool> {
    for word in env::args(rt)?.skip(1) {
        if word.as_str() == "times" {
            return Ok(true);
        }
    }
    Ok(false)
}

/// Prints how long something took, where times are printed.
fn print_time(rt: &HostRuntime, timed: bool, what: &str, time: Duration) -> io::Result<()> {
    if timed {
        println!(rt; "    {what}: {} us", time.as_micros())?;
    }
    Ok(())
}

/// Compares places so far apart, and prints how often the first one was the earlier.
fn time_comparisons(
    rt: &HostRuntime,
    order: &LabelOrder,
    places: &[Pos],
    apart: usize,
    scale: Scale,
) -> io::Result<()>
    requires known { AreIn order.now.places places.now }
    requires some { 0 < length places.now }
{
    let start = Instant::now(rt)?;
    let earlier = compare_many(order, places, apart, scale.comparisons);
    let comparisons = start.elapsed(rt)?;
    println!(rt;
        "{} comparisons of places {apart} apart, the first place earlier: {earlier}",
        scale.comparisons
    )?;
    print_time(rt, scale.timed, "comparisons", comparisons)
}

/// Prints whether places stand as they were inserted behind the first one and how long that took, and compares them.
fn compare_inserted(
    rt: &HostRuntime,
    order: &LabelOrder,
    places: &[Pos],
    insertions: Duration,
    scale: Scale,
) -> io::Result<()>
    requires known { AreIn order.now.places places.now }
    requires some { 0 < length places.now }
{
    println!(rt;
        "{} behind the first place, in reverse order: {}",
        scale.insertions,
        are_reversed(order, places)
    )?;
    print_time(rt, scale.timed, "insertions", insertions)?;
    time_comparisons(rt, order, places, 1, scale)?;
    time_comparisons(rt, order, places, 61, scale)
}

/// Inserts behind the first place, and compares the places.
fn time_first(rt: &HostRuntime, alloc: Global, scale: Scale) -> io::Result<()>
    requires some { 1 ≤ scale.insertions }
    requires few { scale.insertions ≤ 1000000 }
{
    let mut order = LabelOrder::new(alloc)?;
    let start = Instant::now(rt)?;
    let places = insert_behind_first(alloc, &mut order, scale.insertions)?;
    let insertions = start.elapsed(rt)?;
    compare_inserted(rt, &order, &places, insertions, scale)
}

/// Inserts behind the last place of an order of one place.
fn insert_last(rt: &HostRuntime, order: &mut LabelOrder, scale: Scale) -> io::Result<()>
    requires one { length order.old.places ≡ 1 }
    requires few { scale.insertions ≤ 1000000 }
{
    let first = order.first();
    let start = Instant::now(rt)?;
    let last = insert_behind(order, first, scale.insertions)?;
    let insertions = start.elapsed(rt)?;
    println!(rt;
        "{} behind the last place, the first before the last: {}",
        scale.insertions,
        order.before(order.first(), last)
    )?;
    print_time(rt, scale.timed, "insertions", insertions)
}

/// Inserts behind the last place.
fn time_last(rt: &HostRuntime, alloc: Global, scale: Scale) -> io::Result<()>
    requires { scale.insertions ≤ 1000000 }
{
    let mut order = LabelOrder::new(alloc)?;
    insert_last(rt, &mut order, scale)
}

/// Reads a row so many times, and by going over its stamped values as well: whether both read the same, and how long each took.
fn read_by_both(
    rt: &HostRuntime,
    bed: &Bed,
    order: &LabelOrder,
    slots: u16,
    reads: u32,
) -> io::Result<(bool, Duration, Duration)>
    requires ready { IsReady order.now.places bed.now }
    requires some { 1 ≤ slots }
    requires few { slots ≤ 5 }
{
    let stride = 61 % bed.places.len();
    let start = Instant::now(rt)?;
    let sum = read_rows(bed, order, slots, stride, reads);
    let rows = start.elapsed(rt)?;
    let start = Instant::now(rt)?;
    let scanned = scan_rows(bed, order, slots, stride, reads);
    let scans = start.elapsed(rt)?;
    Ok((sum == scanned, rows, scans))
}

/// Reads the first slots of a row, and goes over its stamped values as well.
fn time_both(
    rt: &HostRuntime,
    bed: &Bed,
    order: &LabelOrder,
    slots: u16,
    scale: Scale,
) -> io::Result<()>
    requires ready { IsReady order.now.places bed.now }
    requires some { 1 ≤ slots }
    requires few { slots ≤ 5 }
{
    let (is_same, rows, scans) = read_by_both(rt, bed, order, slots, scale.reads)?;
    println!(rt;
        "{} reads of {} stamped values over {slots} slots, as by scans: {is_same}",
        scale.reads,
        bed.row.stamped()
    )?;
    print_time(rt, scale.timed, "reads", rows)?;
    print_time(rt, scale.timed, "scans", scans)
}

/// Reads a row with so many stamped values in its first slots, and goes over them all as well.
fn time_reads(
    rt: &HostRuntime,
    alloc: Global,
    scale: Scale,
    count: u16,
    slots: u16,
) -> io::Result<()>
    requires some { 1 ≤ slots }
    requires few { slots ≤ 5 }
    requires bound { count ≤ 1000 }
{
    let mut order = LabelOrder::new(alloc)?;
    let bed = filled(alloc, &mut order, count, slots)?;
    time_both(rt, &bed, &order, slots, scale)
}

/// Looks for a place at which a row may be split.
fn time_searches(rt: &HostRuntime, bed: &Bed, order: &LabelOrder, scale: Scale) -> io::Result<()>
    requires { IsReady order.now.places bed.now }
{
    let start = Instant::now(rt)?;
    let found = find_splits(bed, order, scale.splits);
    let splits = start.elapsed(rt)?;
    println!(rt;
        "{} searches for the middle of {} stamped values over 5 slots, each found: {}",
        scale.splits,
        bed.row.stamped(),
        found == scale.splits
    )?;
    print_time(rt, scale.timed, "searches", splits)
}

/// Looks for a place at which a row of 160 stamped values may be split.
fn time_splits(rt: &HostRuntime, alloc: Global, scale: Scale) -> io::Result<()> {
    let mut order = LabelOrder::new(alloc)?;
    let bed = filled(alloc, &mut order, 160, 5)?;
    time_searches(rt, &bed, &order, scale)
}

/// Prints whether the labels are set anew where they have to be, and agree with a vector.
fn print_orders(rt: &HostRuntime, alloc: Global) -> io::Result<()> {
    let anew = sets_labels_anew(alloc)?;
    println!(rt; "labels set anew at the 63rd insertion behind the last place: {anew}")?;
    let alike = orders_agree(alloc)?;
    println!(rt; "10000 places inserted at random, in one list by labels and in a vector: {alike}")
}

/// Prints how many bytes a row and a stamped value take.
fn print_sizes(rt: &HostRuntime) -> io::Result<()> {
    println!(rt;
        "a row of 3 slots and 1 stamped value or fewer: {} bytes",
        size_of::<Row>()
    )?;
    println!(rt; "a stamped value: {} bytes", size_of::<Stamp>())
}

/// Prints whether rows hold what was stamped, and are split in their middle.
fn print_rows(rt: &HostRuntime, alloc: Global) -> io::Result<()> {
    let kept = places_keep_values(alloc)?;
    println!(rt; "each place has what was written there: {kept}")?;
    let eleven = splits_eleven(alloc)?;
    println!(rt; "11 stamped values over 5 slots, split in their middle: {eleven}")?;
    let many = splits_many(alloc)?;
    println!(rt; "160 stamped values over 1 to 5 slots, split in their middle: {many}")
}

fn main(rt: HostRuntime) -> io::Result<()> {
    let scale = if is_timed(&rt)? { TIMED } else { CHECKED };
    print_sizes(&rt)?;
    time_first(&rt, rt.alloc(), scale)?;
    time_last(&rt, rt.alloc(), scale)?;
    for count in [0, 1, 4, 16, 64] {
        time_reads(&rt, rt.alloc(), scale, count, 1)?;
        time_reads(&rt, rt.alloc(), scale, count, 5)?;
    }
    time_splits(&rt, rt.alloc(), scale)?;
    print_orders(&rt, rt.alloc())?;
    print_rows(&rt, rt.alloc())
}
