//! From arguments to a request.

ghost use Rattle.std.specs.Prelude.{◌≡◌, ◌≢◌, ◌↔◌, ℕ, List, Bool, IfErr, IfNone, IfOk, IfSome};
ghost use Rattle.std.specs.Prelude.{Some, codes, option_copied};
ghost use Rattle.clap.specs.Words.{first_of, kind_of, one_of};
ghost use Rattle.clap.specs.declared.error.kind.ErrorKind.TheVariants.{OutOfMemory};
ghost use Rattle.command_line.specs.CommandLines.{argument_texts, PlainRequest, IsCommandLine};
ghost use Rattle.command_line.specs.Request.{plain_request};
ghost use Rattle.command_line.specs.inner.Rows.{IsAskedIn, IsRetainedLimitText, IsFlagText};
ghost use Rattle.command_line.specs.inner.Rows.{IsMakeIn, IsMatchIn, IsPresentNumberText};
ghost use Rattle.command_line.specs.inner.Rows.{parsed_rows};

use crate::numbers::{DEFAULT_RETAINED_LIMIT, MAX_RETAINED_LIMIT, number_in};
use crate::parser::parse;
use crate::request::{ArgumentsRefusal, MatchRequest, Request};
use crate::serve::serve_in;
use clap::error::ErrorKind;
use clap::{ArgMatches, Error};
use flow_values::NoMemory;
use match_generator::{MAX_COUNT, MAX_SEED};
use std::alloc::Global;

/// Parses the arguments after the program's name. `NoLine` if they are no command line.
pub fn read_arguments<'a>(
    alloc: Global,
    arguments: &'a [String],
) -> Result<Request<'a>, ArgumentsRefusal>
    ensures ok { IfOk result
        (λ request. IsCommandLine (argument_texts arguments.entry.now) (plain_request request)) }
    ensures no_line { IfErr result (λ refusal. refusal ≡ ArgumentsRefusal.NoLine
        → (request : PlainRequest) → ¬ IsCommandLine (argument_texts arguments.entry.now) request) }
{
    let matches = match parse(alloc, arguments) {
        Ok(matches) => matches,
        Err(error) => return Err(refusal_of(&error)),
    };
    let Some((command, values)) = matches.subcommand() else {
        return Err(ArgumentsRefusal::NoLine);
    };
    match request_in(alloc, command, values) {
        Ok(Some(request)) => Ok(request),
        Ok(None) => Err(ArgumentsRefusal::NoLine),
        Err(_) => Err(ArgumentsRefusal::NoMemory),
    }
}

/// Converts an error of `clap`.
fn refusal_of(error: &Error) -> ArgumentsRefusal
    ensures { (result ≡ ArgumentsRefusal.NoMemory) ↔ (kind_of error.now ≡ OutOfMemory) }
{
    if error.kind() == ErrorKind::OutOfMemory {
        ArgumentsRefusal::NoMemory
    } else {
        ArgumentsRefusal::NoLine
    }
}

/// The request of a subcommand with these values.
fn request_in<'a>(
    alloc: Global,
    command: &str,
    values: &ArgMatches<'a>,
) -> Result<Option<Request<'a>>, NoMemory>
    ensures some { IfOk result (λ found. IfSome found
        (λ request. IsAskedIn command.now (parsed_rows values.now) (plain_request request))) }
    ensures none { IfOk result (λ found. IfNone found ((request : PlainRequest)
        → ¬ IsAskedIn command.now (parsed_rows values.now) request)) }
{
    if command == "serve" {
        match serve_in(alloc, values)? {
            Some(service) => Ok(Some(Request::Serve(service))),
            None => Ok(None),
        }
    } else {
        Ok(other_request_in(command, values))
    }
}

/// The request of a subcommand other than `serve`.
fn other_request_in<'a>(command: &str, values: &ArgMatches<'a>) -> Option<Request<'a>>
    ensures some { IfSome result
        (λ request. IsAskedIn command.now (parsed_rows values.now) (plain_request request)) }
    ensures none { command.now ≢ codes "serve" → IfNone result ((request : PlainRequest)
        → ¬ IsAskedIn command.now (parsed_rows values.now) request) }
{
    match command {
        "match" => Some(Request::Match(match_in(values)?)),
        "check" => Some(Request::Check),
        "show" => Some(Request::Show {
            pattern: value_of(values, "pattern")?,
        }),
        "make" => {
            let (seed, count) = make_in(values)?;
            Some(Request::Make { seed, count })
        }
        _ => None,
    }
}

/// The request of a `match`.
fn match_in<'a>(values: &ArgMatches<'a>) -> Option<MatchRequest<'a>>
    ensures some { IfSome result (λ request.
        IsMatchIn (parsed_rows values.now) request.whole request.retained_limit
        request.pattern.now) }
    ensures none { IfNone result ((whole : Bool) (retained_limit : ℕ) (pattern : List ℕ)
        → ¬ IsMatchIn (parsed_rows values.now) whole retained_limit pattern) }
{
    let pattern = value_of(values, "pattern")?;
    let retained_limit = retained_limit_in(value_of(values, "cap"))?;
    let whole = is_given(values, "whole");
    Some(MatchRequest {
        whole,
        retained_limit: u64::from(retained_limit),
        pattern,
    })
}

/// Parses the limit, or returns the default.
fn retained_limit_in(text: Option<&str>) -> Option<u32>
    ensures { (retained_limit : ℕ)
        → (result ≡ Some retained_limit)
        ↔ IsRetainedLimitText (option_copied text.entry) retained_limit }
{
    match text {
        Some(text) => number_in(text, 1, MAX_RETAINED_LIMIT),
        None => Some(DEFAULT_RETAINED_LIMIT),
    }
}

/// The seed and the count of a `make`.
fn make_in(values: &ArgMatches<'_>) -> Option<(u32, u32)>
    ensures some { IfSome result (λ both. IsMakeIn (parsed_rows values.now) both.0 both.1) }
    ensures none { IfNone result
        ((seed count : ℕ) → ¬ IsMakeIn (parsed_rows values.now) seed count) }
{
    let seed = number_of(values, "seed", 0, MAX_SEED)?;
    let count = number_of(values, "count", 1, MAX_COUNT)?;
    Some((seed, count))
}

/// The numeric value of an option or positional argument.
pub(crate) fn number_of(values: &ArgMatches<'_>, name: &str, least: u32, most: u32) -> Option<u32>
    ensures { (number : ℕ) → (result ≡ Some number)
        ↔ IsPresentNumberText least most (first_of name.now (parsed_rows values.now)) number }
{
    let text = value_of(values, name)?;
    number_in(text, least, most)
}

/// The value of an option or positional argument.
pub(crate) fn value_of<'a>(values: &ArgMatches<'a>, name: &str) -> Option<&'a str>
    ensures { option_copied result ≡ first_of name.now (parsed_rows values.now) }
{
    values.get_str(name)
}

/// Whether a flag was given.
fn is_given(values: &ArgMatches<'_>, name: &str) -> bool
    ensures { IsFlagText (one_of name.now (parsed_rows values.now)) result }
{
    values.get_flag(name)
}
