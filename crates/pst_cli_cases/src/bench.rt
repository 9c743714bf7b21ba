//! The whole script of the bench for one number.

use pst_cli_bench::bench_script;
use std::test::Fail;

#[test]
fn script_has_20600_lines_from_the_first_version_to_the_last_branch(
    rt: HostRuntime,
) -> Result<(), Fail> {
    let script = bench_script(rt.alloc(), 7)?;
    let text = script.as_slice();
    let start: &[u8] = b"run 0 make 0
run 1 insert 9
run 2 insert 10
run 3 move
run 4 insert 12
";
    let end: &[u8] = b"
query 20199 key
query 20200 key
";
    assert!(rt; text.starts_with(start));
    assert!(rt; text.ends_with(end));
    assert_eq!(rt; text.iter().filter(|byte| **byte == b'\n').count(), 20_600);
    Ok(())
}
