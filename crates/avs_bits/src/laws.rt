// What holds of changes that follow one another.
ghost use Rattle.std.specs.Prelude.{◌≡◌, ℕ, Bool, true};
ghost use Rattle.avs_seg.specs.Image.{Image};
ghost use Rattle.avs_bits.specs.Bit.{IsPart};
ghost use Rattle.avs_bits.specs.BitSet.{HoldsPart};

/// A law: parts that follow one another are a part, in memory and on a disk, and a part is one of more segments. So what
/// several changes leave, done or stopped, is told as what one leaves. It makes no call.
pub fn parts_follow_parts()
    ensures none { (keys : ℕ → Bool) (on : Bool) (set : ℕ → Bool) → IsPart keys on set set }
    ensures then { (keys : ℕ → Bool) (on : Bool) (old mid new : ℕ → Bool)
        → IsPart keys on old mid → IsPart keys on mid new → IsPart keys on old new }
    ensures wider { (keys more : ℕ → Bool) (on : Bool) (old new : ℕ → Bool)
        → ((s : ℕ) → keys s ≡ true → more s ≡ true) → IsPart keys on old new → IsPart more on old new }
    ensures held { (keys : ℕ → Bool) (on : Bool) (old mid : ℕ → Bool) (img : Image) (segs : ℕ)
        → IsPart keys on old mid → HoldsPart keys on mid img segs → HoldsPart keys on old img segs }
{}
