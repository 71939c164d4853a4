// What a receiver keeps in memory, with the disks of its bitmaps and of its landing volume.
use avs_dev::Disk;
use avs_halves::MirrorSets;
use avs_land::Land;
use avs_model::Host;
use avs_sync::Note;
use std::marker::Model;

#[derive(Drop)]
pub(crate) struct Half<D: Disk> {
    pub(crate) host: Host,
    pub(crate) sets: MirrorSets<D>,
    // The disk of a queue, which is only kept.
    pub(crate) queue: Option<D>,
    pub(crate) land: Land<D>,
    pub(crate) note: Note,
    // The last applied place.
    pub(crate) applied: u64,
}

impl<D: Disk> Model for Half<D> {
    ghost use Rattle.std.specs.Option.{option_map};
    ghost use Rattle.avs_receiver.specs.Held.{ReceiverHalf};
    ghost use Rattle.avs_receiver.specs.Over.{IsKept};

    ghost Value = { ReceiverHalf };

    ghost view = { λ h. record { host = h.host; sets = h.sets; queue = option_map D.seen h.queue; land = h.land; note = h.note; applied = h.applied } };

    ghost invariant = { λ h. IsKept (record { host = h.host; sets = h.sets; queue = option_map D.seen h.queue; land = h.land; note = h.note; applied = h.applied }) };
}
