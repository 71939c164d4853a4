// Facts of which each test alters a few.
use avs_model::{GroupFacts, Host, HostFacts, Kind, Refusal, Role, SetFacts, VolumeFacts, Word};
use std::fmt::Debug;
use std::process::Abort;

pub(crate) const UP: HostFacts = HostFacts {
    name: Host::P,
    up: true,
};

pub(crate) const DOWN: HostFacts = HostFacts {
    name: Host::P,
    up: false,
};

pub(crate) fn volume(role: Role, blocks: u32) -> VolumeFacts {
    VolumeFacts {
        there: true,
        role,
        imported: false,
        keeps_import: false,
        blocks,
        reach: blocks,
        empty: false,
    }
}

pub(crate) fn no_volume() -> VolumeFacts {
    VolumeFacts {
        there: false,
        ..volume(Role::Plain, 0)
    }
}

pub(crate) fn set(kind: Kind) -> SetFacts {
    SetFacts {
        there: true,
        kind,
        exported: false,
        stopped: false,
        offline: None,
        back: 0,
        left: 0,
        attached: false,
        used: 0,
        master_empty: false,
        half: None,
    }
}

pub(crate) fn no_set() -> SetFacts {
    SetFacts {
        there: false,
        ..set(Kind::Ind)
    }
}

pub(crate) fn new_group() -> GroupFacts {
    GroupFacts {
        is_new: true,
        is_other: false,
        sets: 0,
        groups: 0,
    }
}

pub(crate) fn wrong(word: Word) -> Option<Refusal> {
    Some(Refusal::WrongState(word))
}

pub(crate) fn busy(role: Role) -> Option<Refusal> {
    Some(Refusal::BusyVolume(role))
}

pub(crate) fn same<T: PartialEq + Debug + Drop>(rt: &impl Abort, found: T, want: T) {
    assert_eq!(rt; found, want);
}
