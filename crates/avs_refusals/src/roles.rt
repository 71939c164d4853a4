// What a volume's role lets it be used for.
ghost use Rattle.std.specs.Prelude.{◌≡◌};
ghost use Rattle.avs_model.specs.Rows.{has_no_role, may_lead, takes_io, is_overflow, tells_away, is_ind, is_small};

use avs_model::{Kind, Role};

pub(crate) fn has_no_role(role: Role) -> bool
    ensures { result ≡ has_no_role role }
{
    matches!(role, Role::Plain)
}

pub(crate) fn may_lead(role: Role) -> bool
    ensures { result ≡ may_lead role }
{
    matches!(role, Role::Plain | Role::Master)
}

pub(crate) fn takes_io(role: Role) -> bool
    ensures { result ≡ takes_io role }
{
    !matches!(role, Role::Bitmap | Role::Overflow | Role::Queue)
}

pub(crate) fn is_overflow(role: Role) -> bool
    ensures { result ≡ is_overflow role }
{
    matches!(role, Role::Overflow)
}

pub(crate) fn tells_away(role: Role) -> bool
    ensures { result ≡ tells_away role }
{
    matches!(role, Role::Away)
}

pub(crate) fn is_ind(kind: Kind) -> bool
    ensures { result ≡ is_ind kind }
{
    matches!(kind, Kind::Ind)
}

pub(crate) fn is_small(kind: Kind) -> bool
    ensures { result ≡ is_small kind }
{
    matches!(kind, Kind::Compact)
}
