// How a sender is found on its parts.
ghost use Rattle.std.specs.Prelude.{◌≡◌, ◌≤◌, All, IfOk, IfErr, IsNone, length, map};
ghost use Rattle.avs_halves.specs.Loading.{HasVolume};
ghost use Rattle.avs_sender.specs.Held.{seen_of};
ghost use Rattle.avs_sender.specs.Kept.{IsKept};
ghost use Rattle.avs_sender.specs.Loading.{HalfRefused, IsLoadable, Loads, MakesMemory, OpensHalf, SenderRefused, found_session, half_found};
ghost use Rattle.avs_sender.specs.PartsView.{seen_parts};
ghost use Rattle.avs_sender.specs.SenderView.{set_places};

use crate::half::Half;
use crate::sender::Sender;
use crate::tracked::Tracked;
use crate::tracking::track;
use avs_code::BadRecord;
use avs_dev::{Back, Below, Disk, Why};
use avs_halves::{MirrorSets, is_receiver};
use avs_model::{Host, Limits, State};
use avs_mqueue::MemQueue;
use avs_seg::NoMemory;
use avs_sync::{HalfClosed, HalfParts, HalfSets, Note, Session, get_note};
use std::alloc::Global;

// The session of a half that is found with a note: it has left, and forgot its places.
fn found_session(note: &Note) -> Session
    ensures { result ≡ found_session note.now }
{
    Session {
        sender: !is_receiver(note.role),
        number: note.session,
        reverse: note.reverse,
        last: 0,
        known: 0,
        mark: note.mark,
        state: State::Logging,
    }
}

// What a half has in memory for its sets: places of their segments, and a queue.
fn make_memory<D: Disk>(
    alloc: Global,
    sets: &MirrorSets<D>,
    limits: Limits,
) -> Result<(Vec<Tracked>, MemQueue), NoMemory>
    requires { length sets.now ≤ 16 }
    ensures { IfOk result (λ m. MakesMemory sets.now limits (map set_places m.0.items) m.1) }
{
    let tracked = track(alloc, sets, limits.writes)?;
    let queue = MemQueue::new(alloc, limits)?;
    Ok((tracked, queue))
}

// The sets of a half as they are found, with what it has in memory for them.
struct Opened<D: Disk> {
    sets: MirrorSets<D>,
    tracked: Vec<Tracked>,
    queue: MemQueue,
}

fn open<D: Disk, B: Below>(
    alloc: Global,
    below: &B,
    sets: HalfSets<D>,
    limits: Limits,
) -> Result<Opened<D>, Back<HalfSets<D>, Why>>
    requires volumes { All (HasVolume (B.seen below.now).sizes) sets }
    requires few { length sets ≤ 16 }
    ensures opens { IfOk result (λ o. OpensHalf (B.seen below.now).sizes sets limits o.sets (map set_places o.tracked.items) o.queue) }
    ensures refused { IfErr result (λ e. HalfRefused (B.seen below.now).sizes sets e.why e.parts) }
{
    let sets = MirrorSets::load(alloc, sets, below)?;
    match make_memory(alloc, &sets, limits) {
        Ok((tracked, queue)) => Ok(Opened {
            sets,
            tracked,
            queue,
        }),
        Err(NoMemory) => Err(Back {
            parts: sets.into_sets(),
            why: Why::NoMemory,
        }),
    }
}

impl<D: Disk> Half<D> {
    // The half that is found with a note.
    fn found(host: Host, opened: Opened<D>, land: D, note: Note, writes: u32) -> Half<D>
        requires kept { IsKept (half_found host (D.seen land) note opened.sets (map set_places opened.tracked.items) opened.queue) }
        requires writes { writes ≡ opened.queue.limits.writes }
        ensures { result ≡ half_found host (D.seen land) note opened.sets (map set_places opened.tracked.items) opened.queue }
    {
        let Opened {
            sets,
            tracked,
            queue,
        } = opened;
        let session = found_session(&note);
        Half {
            host,
            sets,
            tracked,
            land,
            note,
            session,
            queue,
            writes,
        }
    }
}

impl<D: Disk, B: Below> Sender<D, B> {
    /// A sender as it is found on its parts: in logging, with the number and the bits of the disks, whatever state its note
    /// says. Nothing on a disk changes. `BadRecord` tells the first field of the note that breaks its rule, else of the label of the first
    /// bitmap that does, or 64 where its disk is too small. The room of its queue is reserved here.
    pub fn load(
        alloc: Global,
        parts: HalfParts<D, B>,
        limits: Limits,
    ) -> Result<Sender<D, B>, HalfClosed<D, B>>
        requires loadable { IsLoadable (seen_parts D.seen B.seen parts) }
        requires queue { IsNone parts.queue }
        ensures loads { IfOk result (λ s. Loads (B.IsSound parts.below) (seen_parts D.seen B.seen parts) limits (seen_of B.seen s)) }
        ensures below { IfOk result (λ s. s.below ≡ parts.below) }
        ensures refused { IfErr result (λ e. SenderRefused (seen_parts D.seen B.seen parts) e.why (seen_parts D.seen B.seen e.parts)) }
        ensures back { IfErr result (λ e. e.parts.below ≡ parts.below) }
    {
        let note = match get_note(&parts.below.note()) {
            Ok(note) => note,
            Err(BadRecord(field)) => {
                return Err(Back {
                    parts,
                    why: Why::BadRecord(field),
                });
            }
        };
        let HalfParts {
            host,
            below,
            sets,
            queue,
            land,
        } = parts;
        match open(alloc, &below, sets, limits) {
            Ok(opened) => Ok(Sender {
                half: Half::found(host, opened, land, note, limits.writes),
                below,
            }),
            Err(Back { parts: sets, why }) => Err(Back {
                parts: HalfParts {
                    host,
                    below,
                    sets,
                    queue,
                    land,
                },
                why,
            }),
        }
    }
}
