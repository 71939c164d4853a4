// What refusals ask of a volume, so far as its store tells it.
ghost use Rattle.std.specs.Prelude.{◌≡◌, ℕ, List};
ghost use Rattle.avs_model.specs.Hosts.{HostState};
ghost use Rattle.avs_model.specs.HostPlaces.{role_of};
ghost use Rattle.avs_stack.specs.declared.roles.Roles.{Roles};
ghost use Rattle.avs_host.specs.Facts.{HasRolesOf, facts_with, told_role};

use avs_model::{Role, VolumeFacts};
use avs_stack::Roles;

/// What is told of a volume with these roles: the first that it has.
pub fn told_role(roles: &Roles) -> Role
    ensures { result ≡ told_role roles.now }
{
    if roles.away.is_some() {
        Role::Away
    } else if roles.mirror {
        Role::Mirror
    } else if roles.master {
        Role::Master
    } else if roles.shadow {
        Role::Shadow
    } else if roles.bitmap {
        Role::Bitmap
    } else if roles.overflow {
        Role::Overflow
    } else if roles.queue {
        Role::Queue
    } else if roles.import {
        Role::Import
    } else {
        Role::Plain
    }
}

/// The facts of a volume that no import uses, by its roles, None where it is not there, and by its blocks, all of which can be read.
pub(crate) fn facts_with(roles: Option<Roles>, blocks: u32) -> VolumeFacts
    ensures { result ≡ facts_with roles blocks }
{
    match roles {
        Some(roles) => VolumeFacts {
            there: true,
            role: told_role(&roles),
            imported: false,
            keeps_import: false,
            blocks,
            reach: blocks,
            empty: roles.spent,
        },
        None => VolumeFacts {
            there: false,
            role: Role::Plain,
            imported: false,
            keeps_import: false,
            blocks,
            reach: blocks,
            empty: false,
        },
    }
}

/// A law: roles that are those of a volume in a state of the host tell its role there. It makes no call.
pub fn roles_tell_the_role()
    ensures { (roles : Roles) (host : HostState) (name : List ℕ) → HasRolesOf roles host name → told_role roles ≡ role_of host name }
{}
