//! Images by hand: their numbers behind the eight bytes that each image begins with, in order.

use pst_base::NoMemory;
use pst_image_pack::pack;
use pst_image_rules::Rule;
use pst_image_unpack::{ImageFault, Unpacked, unpack};
use pst_order::LabelOrder;
use pst_store_arena::Arena;
use std::alloc::Global;

/// The image of the empty program's store at the start: the root record, without fields, in one node.
const EMPTY: [u64; 21] = [
    1_000_000, 1, 1, 0, 0, 2, // budget, next run, counts, places
    1, 0, 0, 0, 1, // one version
    1, 0, 0, 0, 0, 1, 0, 1, 0, 0, // one node: name, type, life, next, one slot, no stamped value
];

/// Two children of version 0, of which the first was made by the later run, in a store whose root record has two nodes.
const COPIED: [u64; 38] = [
    1_000_000, 3, 1, 1, 0, 6, // budget, next run, counts, places
    3, 0, 0, 0, 5, 0, 2, 1, 2, 0, 1, 3, 4, // three versions
    2, 0, 0, 0, 0, 2, 2, 1, 0, 0, 0, 0, 0, 2, 5, 0, 1, 0, 0, // two nodes
];

/// The child of version 1 was made by the earlier run.
const EARLIER: [u64; 29] = [
    5, 9, 1, 0, 0, 6, // budget, next run, counts, places
    3, 0, 0, 0, 5, 0, 2, 1, 4, 1, 1, 2, 3, // three versions
    1, 0, 0, 0, 0, 5, 0, 1, 0, 0, // one node
];

/// The bytes of an image with this text and the numbers behind it, and one byte more.
fn with_text(alloc: Global, text: &[u8], numbers: &[u64]) -> Result<Vec<u8>, NoMemory> {
    let mut bytes = b"PSTIMG01".to_vec(alloc)?;
    bytes.extend_from_slice(&(text.len() as u64).to_be_bytes())?;
    bytes.extend_from_slice(text)?;
    for number in numbers {
        bytes.extend_from_slice(&number.to_be_bytes())?;
    }
    bytes.push(b'x')?;
    Ok(bytes)
}

/// The same with no text.
fn bytes_of(alloc: Global, numbers: &[u64]) -> Result<Vec<u8>, NoMemory> {
    with_text(alloc, b"", numbers)
}

/// Whether an image of the empty program is taken, and packed again just so.
fn is_packed_again(alloc: Global, numbers: &[u64]) -> Result<bool, ImageFault> {
    let bytes = bytes_of(alloc, numbers)?;
    let taken: Unpacked<LabelOrder, Arena> = unpack(alloc, &bytes)?;
    taken.store.whole();
    let image = pack(alloc, &taken.store, b"", taken.next_run, taken.budget)?;
    Ok(image.as_slice() == &bytes[..taken.length])
}

#[test]
fn what_is_taken_is_packed_again(rt: HostRuntime) -> Result<(), ImageFault> {
    for numbers in [EMPTY.as_slice(), COPIED.as_slice(), EARLIER.as_slice()] {
        assert!(rt; is_packed_again(rt.alloc(), numbers)?);
    }
    Ok(())
}

/// An image with one number changed, and the rule that fails.
const CHANGED: [(usize, u64, Rule); 6] = [
    (20, 1, Rule::Form),
    (0, 0, Rule::Ranges),
    (5, 3, Rule::Ranges),
    (7, 1, Rule::Versions),
    (16, 0, Rule::Nodes),
    (17, 2, Rule::Chains),
];

#[test]
fn first_rule_that_fails_is_named(rt: HostRuntime) -> Result<(), NoMemory> {
    let alloc = rt.alloc();
    for (index, number, rule) in CHANGED {
        let mut numbers = EMPTY;
        numbers[index] = number;
        let bytes = bytes_of(alloc, &numbers)?;
        let taken: Result<Unpacked<LabelOrder, Arena>, ImageFault> = unpack(alloc, &bytes);
        assert!(rt; fails_by(taken, rule), "at {index}");
    }
    Ok(())
}

/// Whether this is the rule that failed.
fn fails_by(taken: Result<Unpacked<LabelOrder, Arena>, ImageFault>, rule: Rule) -> bool {
    match taken {
        Err(fault) => fault == ImageFault::Bad(rule),
        Ok(_) => false,
    }
}

#[test]
fn text_that_is_not_its_own_canonical_text_fails(rt: HostRuntime) -> Result<(), NoMemory> {
    let alloc = rt.alloc();
    for text in [b"x".as_slice(), b"# empty".as_slice(), b" ".as_slice()] {
        let bytes = with_text(alloc, text, &EMPTY)?;
        let taken: Result<Unpacked<LabelOrder, Arena>, ImageFault> = unpack(alloc, &bytes);
        assert!(rt; fails_by(taken, Rule::Text));
    }
    Ok(())
}
