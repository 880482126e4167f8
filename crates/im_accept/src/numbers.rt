ghost use Rattle.std.specs.Prelude.{◌≡◌};
ghost use Rattle.im_accept.specs.Taken.{kept_number, next_number};

use im_script::commands::Command;

/// The number of the transaction whose header a client keeps that the reply to a command at `n` is for:
/// such a client accepts the reply where it is a message. `None` where it never is.
pub fn kept_number(command: &Command, n: u64) -> Option<u64>
    ensures { result ≡ kept_number command.now n }
{
    match command {
        Command::State => Some(n),
        Command::Prove { target, .. } => Some(*target),
        Command::Advance { source, .. } => Some(*source),
        Command::Item { under, .. } => Some(under.unwrap_or(n)),
        Command::Set { .. }
        | Command::Get { .. }
        | Command::Scan { .. }
        | Command::History { .. }
        | Command::Header { .. }
        | Command::Link { .. }
        | Command::Sql { .. } => None,
    }
}

/// The number of the transaction whose header a client keeps behind a message that this command was
/// answered by, where it kept that of `kept` before: an advance leads it on.
pub fn next_number(command: &Command, kept: u64) -> u64
    ensures { result ≡ next_number command.now kept }
{
    match command {
        Command::Advance { target, .. } => *target,
        _ => kept,
    }
}
