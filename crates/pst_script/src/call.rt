//! The calls of a script: which procedure runs on which version or in which run, with which arguments.
ghost use Rattle.std.specs.Prelude.{◌≡◌, true, is_some, IfOk, MatchOption, Some, None, ⊤};
ghost use Rattle.pst_script.specs.Words.{words};
ghost use Rattle.std.specs.List.{list_all};
ghost use Rattle.pst_script.specs.Numerals.{argument_of, fits_64_bits, passing};
ghost use Rattle.pst_script.specs.Commands.{arguments_of, all_fit, called_of, on_version, to_run, IsCallOf, IsReadAs, judged, called_in_range, fault_of};

use crate::command::{Call, Command, LineFault};
use crate::numerals::{argument, is_argument, is_numeral, number};
use crate::words::split_word;
use pst_base::{Numbers, RunNo, Text, VersionNo, is_name};
use std::alloc::Global;

/// The most parameters that a procedure has.
const MOST_PARAMETERS: usize = 8;

/// The words of a call. The arguments stand in one piece, and are not looked at yet.
#[derive(Clone, Copy)]
struct CallWords<'a> {
    number: &'a [u8],
    procedure: &'a [u8],
    arguments: &'a [u8],
}

/// What the words of a call write: the number of a version or of a run, a procedure by its name, and arguments.
#[derive(Drop)]
pub struct Called {
    pub number: u32,
    pub procedure: Text,
    pub arguments: Numbers,
}

impl Called {
    /// The call on the version with the number.
    pub(crate) fn on_version(self) -> Call
        ensures { result ≡ on_version self }
    {
        Call {
            version: VersionNo(self.number),
            procedure: self.procedure,
            arguments: self.arguments,
        }
    }

    /// The command that adds the call to the run with the number.
    pub(crate) fn to_run(self) -> Command
        ensures { result ≡ to_run self }
    {
        Command::CallRun {
            run: RunNo(self.number),
            procedure: self.procedure,
            arguments: self.arguments,
        }
    }
}

/// Whether all words are arguments.
fn are_arguments(rest: &[u8]) -> bool
    ensures { result ≡ is_some (arguments_of (words rest.now)) }
{
    let mut left = rest;
    while let Some((word, behind)) = split_word(left) {
        if !is_argument(word) {
            return false;
        }
        left = behind;
    }
    true
}

/// Whether all arguments have at most 64 bits.
fn fit_arguments(rest: &[u8]) -> bool
    requires { is_some (arguments_of (words rest.now)) ≡ true }
    ensures { result ≡ all_fit (arguments_of (words rest.now)) }
{
    let mut left = rest;
    while let Some((word, behind)) = split_word(left) {
        if argument(word).is_none() {
            return false;
        }
        left = behind;
    }
    true
}

/// What is wrong where words were not read as arguments: their form, or else the range of a number, or else want of memory.
fn fault_of_arguments(rest: &[u8]) -> LineFault
    ensures { result ≡ fault_of (arguments_of (words rest.now)) }
{
    if !are_arguments(rest) {
        return LineFault::Line;
    }
    if !fit_arguments(rest) {
        return LineFault::Number;
    }
    LineFault::Memory
}

/// The number that a word writes as an argument. None where the word is no argument, or has more than 64 bits.
fn read_argument(word: &[u8]) -> Option<i64>
    ensures { result ≡ passing fits_64_bits (argument_of word.now) }
{
    if !is_argument(word) {
        return None;
    }
    argument(word)
}

/// The arguments. Words that are all as they have to be are looked at once; what is wrong is told apart by looking again.
fn read_arguments(alloc: Global, rest: &[u8]) -> Result<Numbers, LineFault>
    ensures { IsReadAs (λ _. ⊤) (judged (list_all fits_64_bits) (arguments_of (words rest.now))) result }
{
    let Ok(mut arguments) = Vec::with_capacity(alloc, room_for_arguments(rest)) else {
        return Err(fault_of_arguments(rest));
    };
    let mut left = rest;
    while let Some((word, behind)) = split_word(left) {
        let Some(number) = read_argument(word) else {
            return Err(fault_of_arguments(left));
        };
        let Ok(()) = arguments.push(number) else {
            return Err(fault_of_arguments(left));
        };
        left = behind;
    }
    Ok(Numbers::from_vec(arguments))
}

/// How many arguments the words can be, up to as many as a procedure has parameters at most.
fn room_for_arguments(rest: &[u8]) -> usize {
    (rest.len() / 2).min(MOST_PARAMETERS)
}

/// The words of a call. None where one of them has not the form.
fn split_call(rest: &[u8]) -> Option<CallWords<'_>>
    ensures { MatchOption result (called_of (words rest.now) ≡ None) (λ call. IsCallOf call (words rest.now)) }
{
    let (number, behind) = split_word(rest)?;
    let (procedure, arguments) = split_word(behind)?;
    if !is_numeral(number) || !is_name(procedure) {
        return None;
    }
    Some(CallWords {
        number,
        procedure,
        arguments,
    })
}

/// The call that the words behind a verb are. Want of memory is answered only where nothing else is wrong with them.
pub(crate) fn read_called(alloc: Global, rest: &[u8]) -> Result<Called, LineFault>
    ensures { IsReadAs (λ _. ⊤) (judged called_in_range (called_of (words rest.now))) result }
{
    let Some(call) = split_call(rest) else {
        return Err(LineFault::Line);
    };
    let Some(number) = number(call.number) else {
        if !are_arguments(call.arguments) {
            return Err(LineFault::Line);
        }
        return Err(LineFault::Number);
    };
    let arguments = read_arguments(alloc, call.arguments)?;
    let procedure = Text::from_vec(Vec::from_slice(alloc, call.procedure)?);
    Ok(Called {
        number,
        procedure,
        arguments,
    })
}
