//! Inputs of the greatest size, one byte more, and all run numbers. They stand here and not in a file, since a program is run
//! as two compilers build it, and one of them makes it too slow for these.

use crate::file::run_file;
use crate::run::Score;
use std::test::Fail;

/// Inputs of 67,108,864 bytes, and of one byte more.
const SIZES: &str = "\
== the greatest input is read
words: run | replay | line | check | code
-- input
%%
\\pad 67108864
== one byte more is too long
words: run | replay | line
status: 5
-- input
%%
\\pad 67108865
== one byte more of a program is too long
words: check | code
status: 5
-- input
\\pad 67108865
== whole lines within the greatest input are answered
words: run | line
status: 5
-- input
%%
versions
\\pad 67108865
-- output
0
== a longer script is not needed to print a program
words: check
-- input
root a: int;
%%
\\pad 67108865
-- output
root a: int;
== a longer script is not needed to list a program
words: code
-- input
root a: int;
%%
\\pad 67108865
== a longer script is not needed to refuse a program
words: run
status: 4
-- input
record N 0 { }
%%
\\pad 67108865
-- output
refused limit at 1
";

/// All 1,048,576 run numbers are taken: that comes behind no version, and before too many open runs.
const NUMBERS: &str = "\
== all run numbers
words: run
-- input
proc p() { }
query q() { }
%%
\\each 1 64 open 0
\\each 65 1048576 run 0 p
open 0
open 0 p
run 0 p
open 4294967295
run 4294967295 p
query 0 q
close 64
open 0
run 0 p
-- output
\\each 1 64 run \\#
\\each 1 1048512 version \\#
refused runs
refused runs
refused runs
refused version
refused version
ok
version 1048513
refused runs
refused runs
== all run numbers of a linear history
words: line
-- input
proc p() { }
query q() { }
%%
\\each 0 1048575 run \\# p
run 1048576 p
run 0 p
run 1048577 p
query 1048576 q
-- output
\\each 1 1048576 version \\#
refused runs
refused old
refused version
ok
";

#[test]
fn the_greatest_inputs_and_one_byte_more(rt: HostRuntime) -> Result<(), Fail> {
    let mut score = Score::none();
    run_file(&rt, b"", SIZES.as_bytes(), &mut score)?;
    assert_eq!(rt; (score.passed, score.failed), (15, 0));
    Ok(())
}

#[test]
fn run_numbers_come_to_an_end(rt: HostRuntime) -> Result<(), Fail> {
    let mut score = Score::none();
    run_file(&rt, b"", NUMBERS.as_bytes(), &mut score)?;
    assert_eq!(rt; (score.passed, score.failed), (2, 0));
    Ok(())
}
