// How a receiver is found on its parts.
ghost use Rattle.std.specs.Prelude.{◌≡◌, ◌≤◌, ◌^◌, IfErr, IfOk, false, true};
ghost use Rattle.avs_sync.specs.Note.{NoteKeeps};
ghost use Rattle.avs_halves.specs.Loading.{LoadsSets};
ghost use Rattle.avs_land.specs.Landing.{LoadsLanding};
ghost use Rattle.avs_receiver.specs.Held.{seen_of};
ghost use Rattle.avs_halves.specs.Over.{AreLoadable, IsOver};
ghost use Rattle.avs_receiver.specs.CatchingUp.{HasSettled, RestCaught};
ghost use Rattle.avs_receiver.specs.PartsView.{opened_as, seen_parts};
ghost use Rattle.avs_receiver.specs.Loading.{AreBadSets, FindsNote, IsNoLandingBehind, LeavesFound, LoadRefused, Loads, MustLoad, RestBack, RestLoaded, applied_on, half_opened};

use crate::half::Half;
use crate::receiver::Receiver;
use avs_code::BadRecord;
use avs_dev::{Back, Below, Disk, Why};
use avs_halves::{MirrorSets, half_why, is_receiver};
use avs_land::Land;
use avs_model::Host;
use avs_sync::{HalfClosed, HalfParts, Note, get_note};
use std::alloc::Global;

// What a receiver is loaded from, once its bits are found.
#[derive(Drop)]
pub(crate) struct Opened<D: Disk, B: Below> {
    host: Host,
    below: B,
    sets: MirrorSets<D>,
    queue: Option<D>,
    land: D,
}

impl<D: Disk, B: Below> Opened<D, B> {
    // The parts that it came from.
    fn close(self) -> HalfParts<D, B>
        ensures parts { seen_parts D.seen B.seen result ≡ opened_as D.seen B.seen self }
        ensures below { result.below ≡ self.below }
    {
        let Opened {
            host,
            below,
            sets,
            queue,
            land,
        } = self;
        HalfParts {
            host,
            below,
            sets: sets.into_sets(),
            queue,
            land,
        }
    }
}

// The note that lies below.
fn find_note<B: Below>(below: &B) -> Result<Note, Why>
    ensures { FindsNote (B.seen below.now).note result }
{
    match get_note(&below.note()) {
        Ok(note) => Ok(note),
        Err(BadRecord(field)) => Err(Why::BadRecord(field)),
    }
}

// The bits of the sets.
fn open_sets<D: Disk, B: Below>(
    alloc: Global,
    parts: HalfParts<D, B>,
) -> Result<Opened<D, B>, HalfClosed<D, B>>
    requires { AreLoadable (B.seen parts.below) parts.sets }
    ensures parts { IfOk result (λ o. opened_as D.seen B.seen o ≡ seen_parts D.seen B.seen parts) }
    ensures sets { IfOk result (λ o. LoadsSets (B.seen parts.below).sizes parts.sets o.sets) }
    ensures below { IfOk result (λ o. o.below ≡ parts.below) }
    ensures refused { IfErr result (λ e. AreBadSets (seen_parts D.seen B.seen parts) e.why (seen_parts D.seen B.seen e.parts)) }
    ensures back { IfErr result (λ e. e.parts.below ≡ parts.below) }
{
    let HalfParts {
        host,
        below,
        sets,
        queue,
        land,
    } = parts;
    match MirrorSets::load(alloc, sets, &below) {
        Ok(sets) => Ok(Opened {
            host,
            below,
            sets,
            queue,
            land,
        }),
        Err(Back { parts: sets, why }) => Err(Back {
            parts: HalfParts {
                host,
                below,
                sets,
                queue,
                land,
            },
            why,
        }),
    }
}

// The last place that was applied, by what has landed.
fn applied_on<D: Disk>(note: &Note, land: &Land<D>) -> u64
    ensures is { result ≡ applied_on note.now land.now.header }
    ensures small { result ≤ 2 ^ 62 }
{
    let Some((session, place)) = land.settled() else {
        return 0;
    };
    if is_receiver(note.role) && session == note.session {
        place
    } else {
        0
    }
}

// What has landed.
fn open_landing<D: Disk, B: Below>(
    alloc: Global,
    opened: Opened<D, B>,
    note: Note,
) -> Result<Receiver<D, B>, HalfClosed<D, B>>
    requires keeps { NoteKeeps note }
    requires over { IsOver (B.seen opened.below) opened.sets }
    ensures landing { IfOk result (λ r. LoadsLanding (D.seen opened.land) r.half.land) }
    ensures half { IfOk result (λ r. r.half ≡ half_opened (opened_as D.seen B.seen opened) opened.sets note r.half.land) }
    ensures below { IfOk result (λ r. r.below ≡ opened.below) }
    ensures refused { IfErr result (λ e. IsNoLandingBehind (opened_as D.seen B.seen opened) e.why (seen_parts D.seen B.seen e.parts)) }
    ensures back { IfErr result (λ e. e.parts.below ≡ opened.below) }
{
    let Opened {
        host,
        below,
        sets,
        queue,
        land,
    } = opened;
    match Land::load(alloc, land) {
        Ok(land) => {
            let applied = applied_on(&note, &land);
            Ok(Receiver {
                below,
                half: Half {
                    host,
                    sets,
                    queue,
                    land,
                    note,
                    applied,
                },
            })
        }
        Err(Back { parts: land, why }) => {
            let opened = Opened {
                host,
                below,
                sets,
                queue,
                land,
            };
            Err(Back {
                parts: opened.close(),
                why: half_why(why),
            })
        }
    }
}

// What a load does with a receiver that it has found; where that is refused, it is taken apart.
fn leave_found<D: Disk, B: Below>(
    alloc: Global,
    mut receiver: Receiver<D, B>,
) -> Result<Receiver<D, B>, HalfClosed<D, B>>
    ensures settles { IfOk result (λ r. HasSettled (B.IsSound receiver.below) (B.IsSound r.below) (seen_of B.seen receiver) (seen_of B.seen r)) }
    ensures refused { IfErr result (λ e. LeavesFound (B.IsSound receiver.below) (seen_of B.seen receiver) e.why (seen_parts D.seen B.seen e.parts)) }
    ensures rest { IfOk result (λ r. RestCaught B.wrote (B.rest receiver.below) (seen_of B.seen receiver) true (B.rest r.below)) }
    ensures rest_back { IfErr result (λ e. RestCaught B.wrote (B.rest receiver.below) (seen_of B.seen receiver) false (B.rest e.parts.below)) }
{
    match receiver.settle(alloc) {
        Ok(()) => Ok(receiver),
        Err(why) => Err(Back {
            parts: receiver.into_parts(),
            why,
        }),
    }
}

impl<D: Disk, B: Below> Receiver<D, B> {
    /// The receiver of these parts, in no session: where its note says that it receives, the landed place of that session is done
    /// once more, and then it leaves. `BadRecord` names the first field of a record that breaks its rule: of the note, of the bitmaps
    /// in order, and of the landing volume; it is 64 where a disk is too small, or where the landed set or its range is not there.
    /// The parts are handed back, and a load of them finds the same half again.
    pub fn load(alloc: Global, parts: HalfParts<D, B>) -> Result<Receiver<D, B>, HalfClosed<D, B>>
        requires { AreLoadable (B.seen parts.below) parts.sets }
        ensures loads { IfOk result (λ r. Loads (B.IsSound parts.below) (B.IsSound r.below) (seen_parts D.seen B.seen parts) (seen_of B.seen r)) }
        ensures refused { IfErr result (λ e. LoadRefused (B.IsSound parts.below) (seen_parts D.seen B.seen parts) e.why (seen_parts D.seen B.seen e.parts)) }
        ensures sure { MustLoad (seen_parts D.seen B.seen parts) → IfErr result (λ e. e.why ≡ Why.NoMemory) }
        ensures rest { IfOk result (λ r. RestLoaded B.wrote (B.rest parts.below) (seen_parts D.seen B.seen parts) true (B.rest r.below)) }
        ensures rest_back { IfErr result (λ e. RestBack B.wrote (B.rest parts.below) (seen_parts D.seen B.seen parts) (B.rest e.parts.below)) }
    {
        let note = match find_note(&parts.below) {
            Ok(note) => note,
            Err(why) => return Err(Back { parts, why }),
        };
        let opened = open_sets(alloc, parts)?;
        let receiver = open_landing(alloc, opened, note)?;
        leave_found(alloc, receiver)
    }
}
