// Which way a sender on a host sends.
ghost use Rattle.std.specs.Prelude.{◌≡◌};
ghost use Rattle.avs_sender.specs.Beginning.{is_reverse};

use avs_model::Host;

// Whether a sender on this host sends from host `s`.
pub(crate) fn is_reverse(host: Host) -> bool
    ensures { result ≡ is_reverse host }
{
    match host {
        Host::P => false,
        Host::S => true,
    }
}
