//! The texts stand there whole.

use pst_samples::{list, ring, tree};

#[test]
fn each_text_has_its_lines_and_ends_with_a_line_feed(rt: HostRuntime) {
    for (text, lines) in [(list(), 32), (tree(), 36), (ring(), 55)] {
        assert!(rt; text.ends_with('\n'));
        assert_eq!(rt;
            text.as_bytes()
                .iter()
                .filter(|byte| **byte == b'\n')
                .count(),
            lines
        );
    }
}
