//! The form of an image.

use crate::images::{EMPTY, LINKED, bytes_of, changed, judged, linking};
use pst_image_form::{FormFault, read_image, write_image};
use std::alloc::Global;

#[test]
fn empty_program_has_184_bytes(rt: HostRuntime) -> Result<(), FormFault> {
    let alloc = rt.alloc();
    let bytes = bytes_of(alloc, &EMPTY)?;
    assert_eq!(rt; bytes.len(), 184);
    let image = read_image(alloc, &bytes)?;
    assert_eq!(rt; image.length, 184);
    let parts = image.parts;
    assert_eq!(rt;
        (parts.budget, parts.next_run.0, parts.places),
        (1_000_000, 1, 2)
    );
    assert_eq!(rt; (parts.counts.records, parts.counts.pointer_writes), (1, 0));
    assert_eq!(rt; parts.versions.as_slice().len(), 1);
    assert_eq!(rt; parts.nodes.as_slice().len(), 1);
    Ok(())
}

/// Whether bytes are read, and written again just so, with one byte more behind them.
fn is_written_again(alloc: Global, numbers: &[u64]) -> Result<bool, FormFault> {
    let mut bytes = bytes_of(alloc, numbers)?;
    bytes.push(b'x')?;
    let image = read_image(alloc, &bytes)?;
    let written = write_image(alloc, &image.parts)?;
    Ok(image.length + 1 == bytes.len() && written.as_slice() == &bytes[..image.length])
}

#[test]
fn what_is_read_is_written_again(rt: HostRuntime) -> Result<(), FormFault> {
    assert!(rt; is_written_again(rt.alloc(), &EMPTY)?);
    assert!(rt; is_written_again(rt.alloc(), &LINKED)?);
    Ok(())
}

/// Numbers that are none of their types, or that promise more than follows.
const UNREAD: [(usize, u64); 9] = [
    (0, 1 << 63),
    (1, 1 << 32),
    (7, 10),
    (16, 3),
    (16, u64::MAX),
    (19, 256),
    (23, 65_536),
    (27, 65_536),
    (36, 1 << 32),
];

#[test]
fn numbers_out_of_their_types_have_no_form(rt: HostRuntime) -> Result<(), FormFault> {
    let alloc = rt.alloc();
    let shape = linking(alloc)?;
    assert!(rt; shape.is_valid());
    for (index, number) in UNREAD {
        let bytes = changed(alloc, &LINKED, index, number)?;
        assert_eq!(rt; judged(alloc, &shape, &bytes)?, Some(0), "at {index}");
    }
    Ok(())
}

#[test]
fn bytes_that_are_cut_or_begin_otherwise_have_no_form(rt: HostRuntime) -> Result<(), FormFault> {
    let alloc = rt.alloc();
    let shape = linking(alloc)?;
    assert!(rt; shape.is_valid());
    let mut bytes = bytes_of(alloc, &LINKED)?;
    let _last = bytes.pop();
    assert_eq!(rt; judged(alloc, &shape, &bytes)?, Some(0));
    assert_eq!(rt; judged(alloc, &shape, b"PSTIMG0")?, Some(0));
    let mut other = bytes_of(alloc, &LINKED)?;
    if let Some(byte) = other.get_mut(7) {
        *byte = b'2';
    }
    assert_eq!(rt; judged(alloc, &shape, &other)?, Some(0));
    Ok(())
}
