// The disks that a group is found on, and is taken apart into.
use crate::lists::{DiskList, SetList};
use avs_dev::{Back, Disk, Why};
use avs_model::Refusal;

/// The disks of a group.
#[derive(Drop)]
pub struct IiParts<D: Disk> {
    pub state: D,
    pub volumes: DiskList<D>,
    /// In order of enabling, with those that are not enabled yet.
    pub sets: SetList<D>,
    pub overs: DiskList<D>,
}

/// Parts that no group was found on, handed back.
pub type IiClosed<D> = Back<IiParts<D>, Why>;

/// A disk that was refused.
pub type Returned<D> = Back<D, Refusal>;

/// Two disks that were refused.
pub type Returned2<D> = Back<(D, D), Refusal>;
