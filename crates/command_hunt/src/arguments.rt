//! The arguments `[--indicators FILE] TIME [CAP]`, the option before or after the others.

ghost use Rattle.std.specs.Prelude.{◌≡◌, ◌≢◌, ◌⊎◌, ◌↔◌, ℕ, ℤ, [], List, IfNone, IfSome, IsTrue};
ghost use Rattle.std.specs.Prelude.{codes};
ghost use Rattle.command_line.specs.CommandLines.{argument_texts, IsNumberOr};
ghost use Rattle.command_line.specs.declared.numbers.TheConstants.{DEFAULT_RETAINED_LIMIT as usual};
ghost use Rattle.command_line.specs.declared.numbers.TheConstants.{MAX_RETAINED_LIMIT as most};
ghost use Rattle.command_hunt.specs.Tasks.{HuntTask, ArePositions, AreWithOption, OptionBefore};
ghost use Rattle.command_hunt.specs.Tasks.{OptionAfter, AskForHunt, AskForNoHunt, hunt_task};

use command_line::{DEFAULT_RETAINED_LIMIT, MAX_RETAINED_LIMIT, number_in};
use stix_times::laws::one_instant;
use stix_times::{Instant, read};

/// The request: the moment at which indicators must be valid, the limit on retained partial matches
/// per pattern, and the indicator file, if any.
#[derive(Clone, Copy)]
pub(crate) struct HuntRequest<'a> {
    pub(crate) file: Option<&'a str>,
    pub(crate) moment: Instant,
    pub(crate) retained_limit: u32,
}

/// The values of TIME and CAP.
#[derive(Clone, Copy)]
struct Positions {
    moment: Instant,
    retained_limit: u32,
}

/// Parses the arguments after the program's name; `None` if they are no command line.
pub(crate) fn read_request<'a>(arguments: &'a [String]) -> Option<HuntRequest<'a>>
    ensures some { IfSome result (λ request. AskForHunt (argument_texts arguments.entry.now)
        (hunt_task request)) }
    ensures none { IfNone result (AskForNoHunt (argument_texts arguments.entry.now)) }
{
    if let Some(positions) = read_positions(arguments) {
        return Some(HuntRequest {
            file: None,
            moment: positions.moment,
            retained_limit: positions.retained_limit,
        });
    }
    let ahead = option_before(arguments);
    if ahead.is_some() {
        return ahead;
    }
    option_after(arguments)
}

/// Parses arguments that begin with the option.
fn option_before<'a>(arguments: &'a [String]) -> Option<HuntRequest<'a>>
    ensures some { IfSome result
        (λ request. OptionBefore (argument_texts arguments.entry.now) (hunt_task request)) }
    ensures none { IfNone result ((task : HuntTask)
        → ¬ OptionBefore (argument_texts arguments.entry.now) task) }
{
    let [option, name, others @ ..] = arguments else {
        return None;
    };
    with_option(option.as_str(), name.as_str(), others)
}

/// Parses arguments that end with the option.
fn option_after<'a>(arguments: &'a [String]) -> Option<HuntRequest<'a>>
    ensures some { IfSome result
        (λ request. OptionAfter (argument_texts arguments.entry.now) (hunt_task request)) }
    ensures none { IfNone result ((task : HuntTask)
        → ¬ OptionAfter (argument_texts arguments.entry.now) task) }
{
    if arguments.len() < 2 {
        return None;
    }
    let (others, last) = arguments.split_at(arguments.len() - 2);
    let [option, name] = last else {
        return None;
    };
    with_option(option.as_str(), name.as_str(), others)
}

/// Parses arguments, given the option, its value and the others.
fn with_option<'a>(option: &str, name: &'a str, others: &[String]) -> Option<HuntRequest<'a>>
    ensures some { IfSome result
        (λ request. AreWithOption option.entry.now name.entry.now (argument_texts others.entry.now)
        (hunt_task request)) }
    ensures none { IfNone result ((task : HuntTask)
        → ¬ AreWithOption option.entry.now name.entry.now (argument_texts others.entry.now) task) }
{
    if !is_option(option, name) {
        return None;
    }
    let Positions {
        moment,
        retained_limit,
    } = read_positions(others)?;
    Some(HuntRequest {
        file: Some(name),
        moment,
        retained_limit,
    })
}

/// Whether the option is `--indicators`, with a file name.
fn is_option(option: &str, name: &str) -> bool
    ensures { IsTrue result ↔ ((option.now ≡ codes "--indicators") × (name.now ≢ [])) }
{
    option == "--indicators" && !name.is_empty()
}

/// Parses TIME and CAP.
fn read_positions(arguments: &[String]) -> Option<Positions>
    ensures some { IfSome result
        (λ positions. ArePositions
        (argument_texts arguments.now) positions.moment positions.retained_limit) }
    ensures none { IfNone result ((moment : ℤ) (retained_limit : ℕ)
        → ¬ ArePositions (argument_texts arguments.now) moment retained_limit) }
{
    let [time, caps @ ..] = arguments else {
        return None;
    };
    let moment = read(time.as_str()).ok()?;
    let retained_limit = read_retained_limit(caps)?;
    Some(Positions {
        moment,
        retained_limit,
    })
}

/// Parses the optional CAP; the default if it is absent.
fn read_retained_limit(arguments: &[String]) -> Option<u32>
    ensures some { IfSome result (IsNumberOr usual 1 most (argument_texts arguments.now)) }
    ensures none { IfNone result ((retained_limit : ℕ)
        → ¬ IsNumberOr usual 1 most (argument_texts arguments.now) retained_limit) }
{
    match arguments {
        [] => Some(DEFAULT_RETAINED_LIMIT),
        [retained_limit] => number_in(retained_limit.as_str(), 1, MAX_RETAINED_LIMIT),
        _ => None,
    }
}
