// What holds of every group.
ghost use Rattle.avs_dev.specs.Below.{IsNoteTold};
ghost use Rattle.avs_ii.specs.AsBelow.{below_of, rest_of, AreFindable};
ghost use Rattle.avs_ii.specs.Held.{IiDisks};
ghost use Rattle.avs_ii.specs.Sound.{IsSound};

/// A law: of a sound group the note on the state disk and the enabled sets are found again. It makes no call.
pub fn sound_is_found()
    ensures note { (g : IiDisks) → IsSound g → IsNoteTold (below_of g) }
    ensures sets { (g : IiDisks) → IsSound g → AreFindable (rest_of g) }
{}
