//! Laws of the two halves of a mirror group. Each is a function without parameters that makes no call: its clause holds of every
//! state that some list of allowed moves reaches, with faults, crashes, recoveries, restores and changes of the mirror sets.
#![tactic(auto)]

ghost use Rattle.std.specs.Prelude.{◌≡◌, ℕ, ◌<◌, Bool, true, false, List, [], ◌∷◌};
ghost use Rattle.avs_seg.specs.Image.{Image, put};
ghost use Rattle.avs_mirrors.specs.Entries.{Images, written, touches};
ghost use Rattle.avs_mirrors.specs.Half.{HalfState, is_sending, weighed, with_write, with_known, resumed_at, rejoined};
ghost use Rattle.avs_mirrors.specs.Pair.{Session, PairState, start};
ghost use Rattle.avs_mirrors.specs.Moves.{Move, PlaceMark, after, after_all, with_source, with_target};
ghost use Rattle.avs_mirrors.specs.Allowed.{Allowed, AllAllowed};
ghost use Rattle.avs_mirrors.specs.Events.{PairEvent, WriteTarget, Resume, Begin, BeginReversed, moves, write_source, learn, WriteSource, keeps_queue};
ghost use Rattle.avs_mirrors.specs.Accepts.{Accepts};
ghost use Rattle.avs_mirrors.specs.Steps.{Step, step_moves, all_moves, Happens, AllHappen};
ghost use Rattle.avs_mirrors.specs.Reached.{IsReached};
ghost use Rattle.avs_pair.specs.Cover.{Covers, SharesBlocks, IsTight, NoneWaits, KeepsPlaces};
ghost use Rattle.avs_pair.specs.Session.{InSession, HasMark, IsSettled};
ghost use Rattle.avs_pair.specs.Messages.{HasFaithful};
ghost use Rattle.avs_pair.specs.Prefix.{IsPrefix, IsEqualAtMark, IsAcknowledged};
ghost use Rattle.avs_pair.specs.Alone.{is_source_alone, is_target_alone, is_source_own, is_target_own, IsSourceAlone, IsSourceAway, IsTargetAlone, IsSourceOwn, IsTargetOwn, IsSourceLeft, IsTargetLeft};
ghost use Rattle.avs_pair.specs.Begins.{BeginsForward, BeginsReversed};
ghost use Rattle.avs_pair.specs.HostCover.{CoversOn};
ghost use Rattle.avs_pair.specs.Onward.{ChangesByNext, AllStay, GoesOn, Remembers};
ghost use Rattle.avs_seg.specs.Staged.{run};
ghost use Rattle.avs_model.specs.Hosts.{Name, Put, own_image};
ghost use Rattle.avs_model.specs.BothHosts.{other_of};
ghost use Rattle.avs_model.specs.declared.event.Host.{Host};
ghost use Rattle.avs_mirrors.specs.Stops.{Stops};
ghost use Rattle.avs_mirrors.specs.MirrorHosts.{MirrorHost, MirrorStage, NamedEntry, NamedKeys, OfHalf, OfHost, Notes, Leaves, Forgets};
ghost use Rattle.avs_mirrors.specs.HalfStages.{InMirrorStage};
ghost use Rattle.avs_mirrors.specs.MirrorStates.{BothStandFor, MirrorState, PairStage, AtHost, in_pair, mirror_host};
ghost use Rattle.avs_mirrors.specs.PairOf.{View, IsPairOf, IsReachedOf, HasPair, sender_host, other_host};
ghost use Rattle.avs_mirrors.specs.MoveStages.{AreAllStages, IsAtRest, MakesImages, SameKeys, image_changed_to, entry_image, views_after};
ghost use Rattle.avs_mirrors.specs.EventStages.{Fault, AreStepStages, AreRunStages, views_behind, AreLeftAlone, BothRun, StopsOn, lies_still};

/// A law: two halves without sets are reached, and so is what allowed moves make of what is reached.
pub fn is_reached()
    ensures start { (a b : Images) → IsReached (start a b) }
    ensures more { (p : PairState) (ms : List Move) → IsReached p → AllAllowed p ms → IsReached (after_all p ms) }
{}

/// A law: every segment in which the halves differ has a bit in one of them.
pub fn always_covered()
    ensures segments { (p : PairState) → IsReached p → Covers p }
    ensures blocks { (p : PairState) → IsReached p → SharesBlocks p }
{}

/// A law: a bit is freed exactly by the greatest place that touches its segment, and a recovery in queuing finds that place again;
/// at the mark no segment waits.
pub fn always_tight()
    ensures tight { (p : PairState) → IsReached p → IsTight p }
    ensures mark { (p : PairState) → Allowed p PlaceMark → NoneWaits (after p PlaceMark) }
    ensures weighed { (p : PairState) → IsReached p → is_sending p.source ≡ true → KeepsPlaces p.source (weighed p.source p.session.order) }
{}

/// A law: in a session both halves have its number, its sets and their places in it; behind the mark stand writes alone. A set that is
/// here is a set of the half.
pub fn always_in_session()
    ensures session { (p : PairState) → IsReached p → InSession p }
    ensures mark { (p : PairState) → IsReached p → HasMark p.session }
    ensures once_more { (p : PairState) → IsReached p → IsSettled p }
    ensures here { (p : PairState) → IsReached p → (set : ℕ)
        → (p.source.here set ≡ true → p.source.on set ≡ true) × (p.target.here set ≡ true → p.target.on set ≡ true) }
{}

/// A law: a message tells the entry of its place, and an answer a place that was applied.
pub fn always_faithful()
    ensures { (p : PairState) → IsReached p → HasFaithful p }
{}

/// A law: from the mark on, and not before, the receiver has contents, and they are a front of the sender's order.
pub fn always_a_prefix()
    ensures { (p : PairState) → IsReached p → IsPrefix p }
{}

/// A law: at the mark both halves have the same images.
pub fn equal_at_the_mark()
    ensures { (p : PairState) → IsReached p → IsEqualAtMark p }
{}

/// A law: what the sender knows applied was applied.
pub fn always_acknowledged()
    ensures { (p : PairState) → IsReached p → IsAcknowledged p }
{}

/// A law: a receiving half's images change by the next entry of its own session alone.
pub fn applies_the_next_alone()
    ensures { (p : PairState) (m : Move) → IsReached p → Allowed p m → ChangesByNext p (after p m) }
{}

/// A law: while no beginning, removal or other number of the receiving half stands between, it goes back behind no place, and
/// what was once known stays applied.
pub fn never_back()
    ensures onward { (p : PairState) (ms : List Move) → 0 < p.session.number → p.target.number ≡ p.session.number
        → AllAllowed p ms → AllStay p ms → GoesOn p (after_all p ms) }
    ensures known { (p : PairState) (ms : List Move) → IsReached p → 0 < p.session.number → p.target.number ≡ p.session.number
        → AllAllowed p ms → AllStay p ms → Remembers p (after_all p ms) }
{}

/// A law: an event that nothing refuses is made of moves that may be made, and so is what a fault leaves of it; and so is each
/// list of events, done or stopped.
pub fn events_are_moves()
    ensures one { (p : PairState) (s : Step) → IsReached p → Happens p s → AllAllowed p (step_moves p s) }
    ensures all { (p : PairState) (ss : List Step) → IsReached p → AllHappen p ss → AllAllowed p (all_moves p ss) }
{}

/// A law: what one half does alone rests on nothing of the other one, and so not on what a fault left there. A set that is disabled,
/// a group that is removed, and a set that goes to another group, look at the other half, and do the same to their own whatever it
/// is: in the last case but for what the half still has of that set.
pub fn works_alone()
    ensures source { (queued : Bool) (p : PairState) (y : HalfState) (e : PairEvent) → is_source_alone e ≡ true → IsSourceAlone queued p y e }
    ensures away { (queued : Bool) (p : PairState) (y : HalfState) (s : Session) (e : PairEvent) → is_source_alone e ≡ true
        → is_sending p.source ≡ false → Accepts p e → IsSourceAway queued p y s e }
    ensures target { (queued : Bool) (p : PairState) (x : HalfState) (s : Session) (e : PairEvent) → is_target_alone e ≡ true
        → IsTargetAlone queued p x s e }
    ensures own_source { (queued : Bool) (p : PairState) (y : HalfState) (s : Session) (e : PairEvent) → is_source_own e ≡ true
        → IsSourceOwn queued p y s e }
    ensures own_target { (queued : Bool) (p : PairState) (x : HalfState) (s : Session) (e : PairEvent) → is_target_own e ≡ true
        → IsTargetOwn queued p x s e }
    ensures left_source { (queued : Bool) (p : PairState) (y : HalfState) (s : Session) (set : ℕ) → IsSourceLeft queued p y s set }
    ensures left_target { (queued : Bool) (p : PairState) (x : HalfState) (s : Session) (set : ℕ) → IsTargetLeft queued p x s set }
{}

/// A law: what some events make of the halves, each in one piece.
pub fn what_events_make()
    ensures logged_source { (p : PairState) (set at : ℕ) (bytes : Image) → is_sending p.source ≡ false
        → after_all p (write_source p set at bytes) ≡ with_source p (with_write p.source (written set at bytes)) }
    ensures logged_target { (queued : Bool) (p : PairState) (set at : ℕ) (bytes : Image)
        → after_all p (moves queued p (WriteTarget set at bytes)) ≡ with_target p (with_write p.target (written set at bytes)) }
    ensures back { (p : PairState) (upto : ℕ) → after_all p (learn p upto) ≡ with_source p (with_known p.source upto p.session.mark) }
    ensures resumed { (queued : Bool) (p : PairState)
        → after_all p (moves queued p Resume) ≡ record p { source = resumed_at p.source p.target.applied; target = rejoined p.target } }
    ensures begun { (queued : Bool) (p : PairState) (full : Bool) (most : ℕ)
        → BeginsForward p full most (after_all p (moves queued p (Begin full most))) }
    ensures reversed { (queued : Bool) (p : PairState) (full : Bool) (most : ℕ)
        → BeginsReversed p full most (after_all p (moves queued p (BeginReversed full most))) }
{}

/// A law: stages of two hosts, each on the host that it is of, make of their mirrors what the moves make of the two halves that they are.
pub fn moves_are_stages()
    ensures { (view : View) (state : MirrorState) (p : PairState) (ms : List Move) (stages : List PairStage) → IsReachedOf view state p
        → AllAllowed p ms → AreAllStages view state p ms stages → IsReachedOf (views_after view ms) (run in_pair state stages) (after_all p ms) }
{}

/// A law: and so do the stages of an event that nothing refuses, done or stopped, and of each list of events.
pub fn events_are_stages()
    ensures one { (view : View) (state : MirrorState) (p : PairState) (s : Step) (stages : List PairStage) → IsReachedOf view state p → Happens p s
        → AreStepStages view state p s stages → IsReachedOf (views_after view (step_moves p s)) (run in_pair state stages) (after_all p (step_moves p s)) }
    ensures all { (view : View) (state : MirrorState) (p : PairState) (ss : List Step) (stages : List PairStage) → IsReachedOf view state p
        → AllHappen p ss → AreRunStages view state p ss stages
        → IsReachedOf (views_behind view p ss) (run in_pair state stages) (after_all p (all_moves p ss)) }
{}

/// A law: stages that change no set of the group, none of its volumes and no half of it leave the two halves as they are.
pub fn others_leave_alone()
    ensures { (view : View) (p : PairState) (old new : MirrorState) → AreLeftAlone view p old new → IsPairOf view old p → IsPairOf view new p }
{}

/// A law: while a host lies still the mirrors of a group are two halves that are reached, wherever a fault stopped what the host was
/// about to do. `state` is what stands when the fault comes: what the event did on the other host is done there, and so is the leaving of
/// a half that does not keep its session; `p` are the halves before the event. The other host may lie still as well: what is left of the
/// event is then asked of whatever that host stands for, where it may be another event. An event that one stage does at once is done
/// whole or not at all.
pub fn stops_have_pairs()
    ensures still { (view : View) (state : MirrorState) (p : PairState) (queued : Bool) (e : PairEvent) (host : Host) (doing : List MirrorStage)
        → IsReached p → BothRun state → Accepts p e → StopsOn view state p (record { event = e; queued = queued; host = host }) doing
        → HasPair view.group (lies_still state host doing) }
    ensures again { (group : Name) (state : MirrorState) (host : Host) (doing : List MirrorStage) → (mirror_host state host).stopped ≡ []
        → ((left : MirrorState) → BothStandFor state left → (view : View) × (p : PairState) × (fault : Fault) × (view.group ≡ group)
        × (fault.host ≡ host) × IsReached p × Accepts p fault.event × StopsOn view left p fault doing)
        → HasPair group (lies_still state host doing) }
    ensures at_once { (view : View) (state : MirrorState) (p : PairState) (queued : Bool) (e : PairEvent) (host : Host) (stage : MirrorStage)
        → IsReachedOf view state p → Accepts p e → ((left : MirrorHost) → InMirrorStage (mirror_host state host) stage left → ⊥)
        → Stops queued p e (moves queued p e) → AreAllStages view state p (moves queued p e) (AtHost host stage ∷ [])
        → StopsOn view state p (record { event = e; queued = queued; host = host }) (stage ∷ []) }
{}

/// A law: a volume at rest, of one set alone, is written by one stage of its host.
pub fn rests_are_written()
    ensures image { (host : MirrorHost) (name volume : Name) (at : ℕ) (bytes : Image) → IsAtRest host name volume
        → MakesImages host (Put volume at bytes ∷ []) (image_changed_to host name (put (own_image host.own volume) at bytes)) }
    ensures entry { (host : MirrorHost) (e : NamedEntry) (volume : Name) → IsAtRest host e.set volume
        → MakesImages host (Put volume e.at e.bytes ∷ []) (entry_image host e) }
{}

/// A law: a fault stops the write of a half in logging, to a volume at rest, before it, in its bits, behind them, in its blocks, or behind
/// all of it; of the image nothing is written before all its bits are. So it is with the write of a half that sends and does not keep its
/// session, once it has left that.
pub fn writes_are_torn()
    ensures source { (view : View) (state : MirrorState) (p : PairState) (queued : Bool) (set at : ℕ) (bytes : Image) (named : NamedKeys) (volume : Name)
        → IsPairOf view state p → Accepts p (WriteSource set at bytes) → is_sending p.source ≡ false
        → SameKeys view.names p.source.on (touches (written set at bytes)) named → IsAtRest (sender_host view state) (view.names set) volume
        → StopsOn view state p (record { event = WriteSource set at bytes; queued = queued; host = view.sender })
        (OfHalf view.group (Notes named) ∷ OfHost (Put volume at bytes) ∷ []) }
    ensures target { (view : View) (state : MirrorState) (p : PairState) (queued : Bool) (set at : ℕ) (bytes : Image) (named : NamedKeys) (volume : Name)
        → IsPairOf view state p → Accepts p (WriteTarget set at bytes)
        → SameKeys view.names p.target.on (touches (written set at bytes)) named → IsAtRest (other_host view state) (view.names set) volume
        → StopsOn view state p (record { event = WriteTarget set at bytes; queued = queued; host = other_of view.sender })
        (OfHalf view.group (Notes named) ∷ OfHost (Put volume at bytes) ∷ []) }
    ensures dropped { (view : View) (state : MirrorState) (p : PairState) (queued : Bool) (set at : ℕ) (bytes : Image) (named : NamedKeys) (volume : Name)
        → IsReachedOf view state p → Accepts p (WriteSource set at bytes) → is_sending p.source ≡ true → keeps_queue queued p.source ≡ false
        → SameKeys view.names p.source.on (touches (written set at bytes)) named → IsAtRest (sender_host view state) (view.names set) volume
        → StopsOn view (run in_pair state (AtHost view.sender (OfHalf view.group Leaves) ∷ AtHost view.sender (OfHalf view.group Forgets) ∷ [])) p
        (record { event = WriteSource set at bytes; queued = queued; host = view.sender })
        (OfHalf view.group (Notes named) ∷ OfHost (Put volume at bytes) ∷ []) }
{}

/// A law: of a set that both hosts have in the group every segment in which its volumes differ has a bit on one of them.
pub fn hosts_are_covered()
    ensures { (view : View) (state : MirrorState) (p : PairState) → IsReachedOf view state p
        → CoversOn view.group (sender_host view state) (other_host view state) }
{}
