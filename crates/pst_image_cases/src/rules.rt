//! The first rule that fails.

ghost use Rattle.pst_base.specs.Shape.{IsValid};

use crate::images::{
    COPIED, CROWDED, DROPPED, EMPTY, LINKED, PAIRED, PARTED, SIBLINGS, STAMPED, TURNED, bytes_of,
    changed, judged, linking, plain,
};
use pst_base::Shape;
use pst_image_form::FormFault;
use std::alloc::Global;

/// A number that is changed: its index, the other number, and the number of the first rule that fails then.
type Change = (usize, u64, Option<u8>);

const EMPTY_CHANGES: [Change; 6] = [
    (6, 3, Some(2)),
    (17, 0, Some(4)),
    (20, 128, Some(4)),
    (3, 0, Some(9)),
    (12, 0, Some(2)),
    (1, 1, None),
];

const LINKED_CHANGES: [Change; 49] = [
    (1, 0, Some(2)),
    (1, 1_000_000_001, Some(2)),
    (2, 0, Some(2)),
    (2, 1, Some(2)),
    (2, 1_048_578, Some(2)),
    (2, 1_048_577, None),
    (3, (1 << 50) + 1, Some(2)),
    (4, (1 << 50) + 1, Some(2)),
    (5, (1 << 50) + 1, Some(2)),
    (6, 1, Some(2)),
    (6, 5, Some(2)),
    (7, 3, Some(2)),
    (8, 1, Some(3)),
    (9, 1, Some(3)),
    (11, 2, Some(3)),
    (12, 1, Some(3)),
    (13, 0, Some(3)),
    (13, 2, Some(3)),
    (14, 0, Some(3)),
    (14, 2, Some(3)),
    (15, 3, Some(3)),
    (19, 1, Some(4)),
    (19, 2, Some(4)),
    (21, 4, Some(4)),
    (28, 0, Some(4)),
    (28, 2, Some(4)),
    (29, 1, Some(4)),
    (29, 3, Some(4)),
    (30, 2, Some(4)),
    (31, 1, Some(4)),
    (31, 3, Some(4)),
    (42, 127, Some(4)),
    (42, 129, Some(4)),
    (42, 384, Some(4)),
    (17, 1, Some(5)),
    (18, 1, Some(5)),
    (22, 2, Some(5)),
    (22, 3, Some(5)),
    (33, 0, Some(5)),
    (33, 2, Some(5)),
    (24, 2, Some(6)),
    (30, 1, Some(6)),
    (32, 2, Some(6)),
    (41, 2, Some(6)),
    (42, 0, Some(6)),
    (43, 128, Some(6)),
    (29, 0, Some(7)),
    (34, 7, None),
    (40, u64::MAX, None),
];

const PAIRED_CHANGES: [Change; 6] = [
    (27, 2, Some(6)),
    (27, 4, Some(6)),
    (28, 2, Some(6)),
    (42, 2, Some(6)),
    (43, 128, Some(7)),
    (39, 128, Some(7)),
];

const SIBLINGS_CHANGES: [Change; 4] = [
    (16, 1, Some(3)),
    (17, 1, Some(3)),
    (19, 3, Some(3)),
    (19, 4, Some(3)),
];

const COPIED_CHANGES: [Change; 6] = [
    (26, 2, Some(4)),
    (17, 1, Some(5)),
    (18, 0, Some(5)),
    (18, 3, Some(5)),
    (22, 1, Some(5)),
    (27, 1, Some(5)),
];

/// How many of the changes come to another rule than what is wanted.
fn differences(
    alloc: Global,
    shape: &Shape,
    numbers: &[u64],
    changes: &[Change],
) -> Result<usize, FormFault>
    requires { IsValid shape.now }
{
    let mut differences = 0;
    for (index, number, want) in changes {
        let bytes = changed(alloc, numbers, *index, *number)?;
        if judged(alloc, shape, &bytes)? != *want && differences < 1000 {
            differences += 1;
        }
    }
    Ok(differences)
}

#[test]
fn images_are_accepted(rt: HostRuntime) -> Result<(), FormFault> {
    let alloc = rt.alloc();
    let (plain, linking) = (plain(alloc)?, linking(alloc)?);
    assert!(rt; plain.is_valid() && linking.is_valid());
    assert_eq!(rt; judged(alloc, &plain, &bytes_of(alloc, &EMPTY)?)?, None);
    assert_eq!(rt; judged(alloc, &plain, &bytes_of(alloc, &SIBLINGS)?)?, None);
    assert_eq!(rt; judged(alloc, &plain, &bytes_of(alloc, &TURNED)?)?, None);
    assert_eq!(rt; judged(alloc, &plain, &bytes_of(alloc, &COPIED)?)?, None);
    assert_eq!(rt; judged(alloc, &linking, &bytes_of(alloc, &LINKED)?)?, None);
    assert_eq!(rt; judged(alloc, &linking, &bytes_of(alloc, &PAIRED)?)?, None);
    Ok(())
}

#[test]
fn record_that_lives_over_no_version_is_accepted(rt: HostRuntime) -> Result<(), FormFault> {
    let alloc = rt.alloc();
    let shape = linking(alloc)?;
    assert!(rt; shape.is_valid());
    assert_eq!(rt; judged(alloc, &shape, &bytes_of(alloc, &DROPPED)?)?, None);
    assert_eq!(rt; judged(alloc, &shape, &bytes_of(alloc, &PARTED)?)?, Some(5));
    Ok(())
}

#[test]
fn node_above_its_capacity_fails_before_the_bound(rt: HostRuntime) -> Result<(), FormFault> {
    let alloc = rt.alloc();
    let shape = plain(alloc)?;
    assert!(rt; shape.is_valid());
    assert_eq!(rt;
        judged(alloc, &shape, &bytes_of(alloc, &CROWDED)?)?,
        Some(8)
    );
    assert_eq!(rt;
        judged(alloc, &shape, &bytes_of(alloc, &STAMPED)?)?,
        Some(9)
    );
    assert_eq!(rt;
        judged(alloc, &shape, &changed(alloc, &STAMPED, 3, 2)?)?,
        None
    );
    Ok(())
}

#[test]
fn first_rule_that_fails_is_found_without_fields(rt: HostRuntime) -> Result<(), FormFault> {
    let alloc = rt.alloc();
    let shape = plain(alloc)?;
    assert!(rt; shape.is_valid());
    assert_eq!(rt; differences(alloc, &shape, &EMPTY, &EMPTY_CHANGES)?, 0);
    assert_eq!(rt;
        differences(alloc, &shape, &SIBLINGS, &SIBLINGS_CHANGES)?,
        0
    );
    assert_eq!(rt; differences(alloc, &shape, &COPIED, &COPIED_CHANGES)?, 0);
    Ok(())
}

#[test]
fn first_rule_that_fails_is_found_with_fields(rt: HostRuntime) -> Result<(), FormFault> {
    let alloc = rt.alloc();
    let shape = linking(alloc)?;
    assert!(rt; shape.is_valid());
    for (index, number, want) in LINKED_CHANGES {
        let bytes = changed(alloc, &LINKED, index, number)?;
        assert_eq!(rt; judged(alloc, &shape, &bytes)?, want, "{number} at {index}");
    }
    assert_eq!(rt; differences(alloc, &shape, &PAIRED, &PAIRED_CHANGES)?, 0);
    Ok(())
}
