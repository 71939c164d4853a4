// Which events there are so far.
ghost use Rattle.std.specs.Prelude.{◌≡◌};
ghost use Rattle.avs_model.specs.Script.{built, built_command, is_p};

use avs_model::{Event, Host, IiCommand};

fn is_p(host: Host) -> bool
    ensures { result ≡ is_p host }
{
    matches!(host, Host::P)
}

// Whether the form of a command on shadow sets is there already.
fn is_built_command(command: &IiCommand) -> bool
    ensures { result ≡ built_command command.now }
{
    match command {
        IiCommand::Enable { dependent, .. } => *dependent,
    }
}

/// Whether the form of an event is there already.
pub fn is_built(event: &Event) -> bool
    ensures { result ≡ built event.now }
{
    match event {
        Event::Volume { host, .. } => is_p(*host),
        Event::Write { host, pattern, .. } => is_p(*host) && pattern.as_slice().len() == 1,
        Event::Read { host, .. } => is_p(*host),
        Event::Ii { host, command } => is_p(*host) && is_built_command(command),
        Event::Arm { host, .. } => is_p(*host),
        Event::Crash { host } => is_p(*host),
        Event::Recover { host } => is_p(*host),
    }
}
