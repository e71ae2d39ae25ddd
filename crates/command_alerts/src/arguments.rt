//! The arguments `PATTERN N SECONDS`.

ghost use Rattle.std.specs.Prelude.{IfNone, IfSome};
ghost use Rattle.command_line.specs.CommandLines.{argument_texts};
ghost use Rattle.command_alerts.specs.Tasks.{AskForAlerts, AskForNoAlerts, IsInRange, alert_task};

use command_line::number_in;

/// The largest number of matches that may be requested.
pub const MAX_N: u32 = 10_000;

/// The longest window, in seconds.
pub const MAX_SECONDS: u32 = 4_294_967_295;

/// The request: the alerts of a pattern, for n matches within a window.
#[derive(Clone, Copy)]
pub(crate) struct AlertRequest<'a> {
    pub(crate) pattern: &'a str,
    pub(crate) n: u32,
    pub(crate) seconds: u32,
}

/// Parses the arguments after the program's name; `None` if they are no command line.
pub(crate) fn read_request<'a>(arguments: &'a [String]) -> Option<AlertRequest<'a>>
    ensures some { IfSome result (λ request. AskForAlerts (argument_texts arguments.entry.now)
        (alert_task request)) }
    ensures range { IfSome result (λ request. IsInRange (alert_task request)) }
    ensures none { IfNone result (AskForNoAlerts (argument_texts arguments.entry.now)) }
{
    let [pattern, n, seconds] = arguments else {
        return None;
    };
    let n = number_in(n.as_str(), 1, MAX_N)?;
    let seconds = number_in(seconds.as_str(), 1, MAX_SECONDS)?;
    Some(AlertRequest {
        pattern: pattern.as_str(),
        n,
        seconds,
    })
}
