// What holds of every disk through its calls.
ghost use Rattle.std.specs.Prelude.{◌≡◌, ◌≢◌, ◌⊎◌, Result, Ok};
ghost use Rattle.avs_dev.specs.Devices.{AllGoOn};
ghost use Rattle.avs_dev.specs.Seen.{Seen, GoesOn};

/// A law: one call after another. A disk, or each of several, goes on through both as through one. It makes no call.
pub fn calls_follow_calls<N, S, F, T, E>()
    ensures disk { (old mid new : Seen) (x : S) (result : Result T E)
        → GoesOn {E = F} old (Ok x) mid → GoesOn mid result new → GoesOn old result new }
    ensures disks { (old mid new : N → Seen) (x : S) (result : Result T E)
        → AllGoOn {E = F} old (Ok x) mid → AllGoOn mid result new → AllGoOn old result new }
{}

/// A law: a disk among others, each by its name. Where one goes on and the others stay, all go on. It makes no call.
pub fn disks_stay_beside_one<N, T, E>()
    ensures { (old new : N → Seen) (name : N) (result : Result T E)
        → ((other : N) → (other ≡ name) ⊎ (other ≢ name))
        → ((other : N) → other ≢ name → new other ≡ old other)
        → GoesOn (old name) result (new name) → AllGoOn old result new }
{}
