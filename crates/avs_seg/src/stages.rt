// What holds of all stages.
ghost use Rattle.std.specs.Prelude.{◌≡◌, ◌⊎◌, ◌++◌, List, ℕ, Bool, true, false, IsTrue, map};
ghost use Rattle.avs_seg.specs.Staged.{Stages, run, StoppedIn, IsWithin, IsOnlyWithin, Parts, ArePartsApart, in_parts, own};

/// Something that is done in stages. It has no calls: contracts alone see what the stages do.
pub trait Staged {
    ghost State: { Type 0 };

    ghost Stage: { Type 0 };

    ghost does: { Stages State Stage };
}

/// The same of a whole of several parts, each with stages of its own.
pub trait InParts {
    ghost Index: { Type 0 };

    ghost Part: { Type 0 };

    ghost Stage: { Type 0 };

    ghost Whole: { Type 0 };

    ghost parts: { Parts Index Part Whole };

    ghost are_apart: { ArePartsApart parts };

    ghost does: { Stages Part Stage };
}

/// A law: where stages may be stopped. It makes no call.
pub fn stages_are_stopped<A: Staged>()
    ensures before { (state : A.State) (stages : List A.Stage) → StoppedIn A.does state stages state }
    ensures behind { (state : A.State) (stages : List A.Stage)
        → StoppedIn A.does state stages (run A.does state stages) }
    ensures keeps { (kept : A.State → Bool)
        → ((state : A.State) (stage : A.Stage) → IsTrue (kept state) → IsTrue (kept (A.does.after state stage)))
        → ((state : A.State) (stage : A.Stage) (new : A.State)
        → IsTrue (kept state) → A.does.In state stage new → IsTrue (kept new))
        → (state : A.State) (stages : List A.Stage) (new : A.State)
        → IsTrue (kept state) → StoppedIn A.does state stages new → IsTrue (kept new) }
{}

/// A law: stages, and others behind them. It makes no call.
pub fn stages_follow_stages<A: Staged>()
    ensures run { (state : A.State) (first second : List A.Stage)
        → run A.does state (first ++ second) ≡ run A.does (run A.does state first) second }
    ensures in_first { (state : A.State) (first second : List A.Stage) (new : A.State)
        → StoppedIn A.does state first new → StoppedIn A.does state (first ++ second) new }
    ensures in_second { (state : A.State) (first second : List A.Stage) (new : A.State)
        → StoppedIn A.does (run A.does state first) second new → StoppedIn A.does state (first ++ second) new }
    ensures in_either { (state : A.State) (first second : List A.Stage) (new : A.State)
        → StoppedIn A.does state (first ++ second) new
        → StoppedIn A.does state first new ⊎ StoppedIn A.does (run A.does state first) second new }
{}

/// A law: stages that are done within a larger state. It makes no call.
pub fn stages_within_others<A: Staged, B: Staged>()
    ensures run { (inside : A.State → B.State) (as_outer : A.Stage → B.Stage) → IsWithin A.does B.does inside as_outer
        → (state : A.State) (stages : List A.Stage)
        → run B.does (inside state) (map as_outer stages) ≡ inside (run A.does state stages) }
    ensures stopped { (inside : A.State → B.State) (as_outer : A.Stage → B.Stage)
        → IsWithin A.does B.does inside as_outer
        → (state : A.State) (stages : List A.Stage) (new : A.State) → StoppedIn A.does state stages new
        → StoppedIn B.does (inside state) (map as_outer stages) (inside new) }
    ensures only { (inside : A.State → B.State) (as_outer : A.Stage → B.Stage)
        → IsOnlyWithin A.does B.does inside as_outer
        → (state : A.State) (stages : List A.Stage) (new : B.State)
        → StoppedIn B.does (inside state) (map as_outer stages) new
        → (left : A.State) × (StoppedIn A.does state stages left × (new ≡ inside left)) }
{}

/// A law: a part of a whole sees its own stages alone. It makes no call.
pub fn parts_see_their_stages<A: InParts>()
    ensures run { (i : A.Index) (whole : A.Whole) (stages : List (A.Index × A.Stage))
        → A.parts.part (run (in_parts A.parts A.does) whole stages) i
        ≡ run A.does (A.parts.part whole i) (own A.parts i stages) }
    ensures stopped { (i : A.Index) (whole : A.Whole) (stages : List (A.Index × A.Stage)) (new : A.Whole)
        → StoppedIn (in_parts A.parts A.does) whole stages new
        → StoppedIn A.does (A.parts.part whole i) (own A.parts i stages) (A.parts.part new i) }
{}
