// What a sender keeps in memory, with the disks of its bitmaps and of its landing volume.
use crate::tracked::Tracked;
use avs_dev::Disk;
use avs_halves::MirrorSets;
use avs_model::Host;
use avs_mqueue::MemQueue;
use avs_sync::{Note, Session};
use std::marker::Model;

#[derive(Drop)]
pub(crate) struct Half<D: Disk> {
    pub(crate) host: Host,
    pub(crate) sets: MirrorSets<D>,
    pub(crate) tracked: Vec<Tracked>,
    pub(crate) land: D,
    pub(crate) note: Note,
    pub(crate) session: Session,
    pub(crate) queue: MemQueue,
    // How many entries the queue may hold.
    pub(crate) writes: u32,
}

impl<D: Disk> Model for Half<D> {
    ghost use Rattle.std.specs.Prelude.{◌≡◌, map};
    ghost use Rattle.avs_sender.specs.Held.{SenderHalf};
    ghost use Rattle.avs_sender.specs.Kept.{IsKept};
    ghost use Rattle.avs_sender.specs.SenderView.{set_places};

    ghost Value = { SenderHalf };

    ghost view = { λ h. record { host = h.host; sets = h.sets; places = map set_places h.tracked.items; land = D.seen h.land; note = h.note; session = h.session; queue = h.queue } };

    ghost invariant = { λ h. IsKept (record { host = h.host; sets = h.sets; places = map set_places h.tracked.items; land = D.seen h.land; note = h.note; session = h.session; queue = h.queue }) × (h.writes ≡ h.queue.limits.writes) };
}
