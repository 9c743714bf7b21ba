//! Reading a line of a script.
ghost use Rattle.std.specs.Prelude.{◌≡◌, ◌≢◌, [], true, MatchOption, MatchResult, Some, None, IsSomeAnd, IfOk, IfSome};
ghost use Rattle.pst_script.specs.Words.{words};
ghost use Rattle.pst_script.specs.Numerals.{is_numeral, number_of, fits_32_bits, fits_charges};
ghost use Rattle.pst_script.specs.Commands.{one_number, judged, in_range, command_after, IsReadAs, HasCall, reading};
ghost use Rattle.pst_script.specs.declared.verb.Verb.TheVariants as verb_names;

use crate::call::read_called;
use crate::command::{Command, LineFault};
use crate::numerals::{charges, is_numeral, number};
use crate::verb::{Verb, find_verb};
use crate::words::split_word;
use pst_base::{RunNo, VersionNo};
use std::alloc::Global;

/// The only word, where it is a numeral.
fn only_numeral(rest: &[u8]) -> Option<&[u8]>
    ensures { MatchOption result (one_number (words rest.now) ≡ None) (λ word. (is_numeral word.now ≡ true) × (one_number (words rest.now) ≡ number_of word.now)) }
{
    let (word, behind) = split_word(rest)?;
    if split_word(behind).is_some() || !is_numeral(word) {
        return None;
    }
    Some(word)
}

/// The number of a run, alone.
fn read_run(rest: &[u8]) -> Result<u32, LineFault>
    ensures { result ≡ judged fits_32_bits (one_number (words rest.now)) }
{
    let Some(word) = only_numeral(rest) else {
        return Err(LineFault::Line);
    };
    let Some(run) = number(word) else {
        return Err(LineFault::Number);
    };
    Ok(run)
}

/// A version alone, or a call on one.
fn read_open(alloc: Global, rest: &[u8]) -> Result<Command, LineFault>
    ensures { IsReadAs HasCall (judged in_range (command_after (Some verb_names.Open) (words rest.now))) result }
{
    let Some(word) = only_numeral(rest) else {
        return Ok(Command::OpenRun(read_called(alloc, rest)?.on_version()));
    };
    let Some(version) = number(word) else {
        return Err(LineFault::Number);
    };
    Ok(Command::OpenEmpty {
        version: VersionNo(version),
    })
}

/// A number of charges, alone.
fn read_charges(rest: &[u8]) -> Result<u32, LineFault>
    ensures { result ≡ judged fits_charges (one_number (words rest.now)) }
{
    let Some(word) = only_numeral(rest) else {
        return Err(LineFault::Line);
    };
    let Some(charges) = charges(word) else {
        return Err(LineFault::Number);
    };
    Ok(charges)
}

/// The number of a run, and a number of charges.
fn read_step(rest: &[u8]) -> Result<Command, LineFault>
    ensures { result ≡ judged in_range (command_after (Some verb_names.Step) (words rest.now)) }
{
    let Some((run, behind)) = split_word(rest) else {
        return Err(LineFault::Line);
    };
    let Some(granted) = only_numeral(behind) else {
        return Err(LineFault::Line);
    };
    if !is_numeral(run) {
        return Err(LineFault::Line);
    }
    let Some(run) = number(run) else {
        return Err(LineFault::Number);
    };
    let Some(charges) = charges(granted) else {
        return Err(LineFault::Number);
    };
    Ok(Command::StepRun {
        run: RunNo(run),
        charges,
    })
}

/// No word.
fn read_end(rest: &[u8]) -> Result<(), LineFault>
    ensures { MatchResult result (λ _. words rest.now ≡ []) (λ fault. (fault ≡ LineFault.Line) × (words rest.now ≢ [])) }
{
    if split_word(rest).is_some() {
        return Err(LineFault::Line);
    }
    Ok(())
}

/// The command that a verb and the words behind it are.
fn read_command(alloc: Global, verb: Verb, rest: &[u8]) -> Result<Command, LineFault>
    ensures { IsReadAs HasCall (judged in_range (command_after (Some verb) (words rest.now))) result }
{
    match verb {
        Verb::Run => Ok(Command::Run(read_called(alloc, rest)?.on_version())),
        Verb::Query => Ok(Command::Query(read_called(alloc, rest)?.on_version())),
        Verb::Open => read_open(alloc, rest),
        Verb::Call => Ok(read_called(alloc, rest)?.to_run()),
        Verb::Step => read_step(rest),
        Verb::Close => Ok(Command::CloseRun {
            run: RunNo(read_run(rest)?),
        }),
        Verb::Drop => Ok(Command::DropRun {
            run: RunNo(read_run(rest)?),
        }),
        Verb::Budget => Ok(Command::Budget {
            charges: read_charges(rest)?,
        }),
        Verb::Versions => {
            read_end(rest)?;
            Ok(Command::Versions)
        }
        Verb::Stats => {
            read_end(rest)?;
            Ok(Command::Stats)
        }
    }
}

/// What a line of a script is: None for a line without a word, and for one whose first word begins with `#`; otherwise a
/// command, whose numbers are in their ranges, or a fault. All words are judged by their form before any number is judged
/// by its range.
///
/// # Errors
///
/// `Line` where the words have none of the forms of a command; otherwise `Number` where a number is out of its range;
/// otherwise `Memory` where there is none for the name and the arguments of a call.
#[tactic(auto, unfolding(crate::specs::Commands::reading))]
pub fn read_line(alloc: Global, line: &[u8]) -> Result<Option<Command>, LineFault>
    ensures command { IsReadAs (λ command. IsSomeAnd command HasCall) (reading line.now) result }
    ensures range { IfOk result (λ command. IfSome command (λ c. in_range c ≡ true)) }
{
    let Some((first, rest)) = split_word(line) else {
        return Ok(None);
    };
    if first[0] == b'#' {
        return Ok(None);
    }
    let Some(verb) = find_verb(first) else {
        return Err(LineFault::Line);
    };
    Ok(Some(read_command(alloc, verb, rest)?))
}
