// How many chunks are in each state, kept beside the states.
ghost use Rattle.std.specs.Prelude.{◌≡◌, ◌≢◌, ℕ, ◌+◌, ◌*◌, ◌/◌, ◌<◌, ◌≤◌, ◌^◌, ◌==◌, IsTrue, not, if◌then◌else◌, length};
ghost use Rattle.avs_chunks.specs.States.{code_of, state_in};
ghost use Rattle.avs_chunks.specs.Counted.{AreCounted, AreFew, HasOne, Changes};

use crate::states::{ChunkState, count_in, one_if, set_state, state_in};

/// How many chunks of a set stand on the master alone, stand on the shadow alone, and are split.
#[derive(Clone, Copy)]
pub(crate) struct Counts {
    pub(crate) alone: u32,
    pub(crate) back: u32,
    pub(crate) split: u32,
}

// Whether a state is another one.
fn is_same(state: ChunkState, other: ChunkState) -> bool
    ensures { result ≡ (code_of state == code_of other) }
{
    state.code() == other.code()
}

// A count once a chunk has changed, which was counted before and is now, or not.
fn recounted(count: u32, was: bool, is: bool) -> u32
    requires some { IsTrue was → 0 < count }
    requires few { count < 2 ^ 31 }
    ensures { result + (if was then 1 else 0) ≡ count + (if is then 1 else 0) }
{
    count - one_if(was) + one_if(is)
}

impl Counts {
    /// Those of the first chunks.
    pub(crate) fn of(bytes: &[u8], end: u32) -> Counts
        requires { end ≤ 4 * length bytes.now }
        ensures { AreCounted (state_in bytes.now) end result }
    {
        Counts {
            alone: count_in(bytes, end, ChunkState::OnMaster),
            back: count_in(bytes, end, ChunkState::OnShadow),
            split: count_in(bytes, end, ChunkState::Split),
        }
    }

    /// Whether none is counted that stands on one disk alone.
    pub(crate) fn none_alone(self) -> bool
        ensures yes { IsTrue result → (self.alone ≡ 0) × (self.back ≡ 0) }
        ensures no { IsTrue (not result) → self.alone ≡ 0 → self.back ≡ 0 → ⊥ }
    {
        self.alone == 0 && self.back == 0
    }

    // The counts once a chunk has come from a state to another.
    fn changed(self, from: ChunkState, to: ChunkState) -> Counts
        requires one { HasOne self (code_of from) }
        requires few { AreFew self }
        ensures { Changes self (code_of from) (code_of to) result }
    {
        let Counts { alone, back, split } = self;
        Counts {
            alone: recounted(
                alone,
                is_same(from, ChunkState::OnMaster),
                is_same(to, ChunkState::OnMaster),
            ),
            back: recounted(
                back,
                is_same(from, ChunkState::OnShadow),
                is_same(to, ChunkState::OnShadow),
            ),
            split: recounted(
                split,
                is_same(from, ChunkState::Split),
                is_same(to, ChunkState::Split),
            ),
        }
    }
}

/// Sets the state of a chunk, which is counted where it is one of the first `end`.
pub(crate) fn set_counted(
    bytes: &mut [u8],
    counts: Counts,
    end: u32,
    chunk: u32,
    state: ChunkState,
) -> Counts
    requires inside { chunk / 4 < length bytes.old }
    requires few { end < 2 ^ 31 }
    requires counted { AreCounted (state_in bytes.old) end counts }
    ensures len { length bytes.new ≡ length bytes.old }
    ensures now { state_in bytes.new chunk ≡ code_of state }
    ensures others { (c : ℕ) → c ≢ chunk → state_in bytes.new c ≡ state_in bytes.old c }
    ensures counted { AreCounted (state_in bytes.new) end result }
{
    let from = state_in(bytes, chunk);
    set_state(bytes, chunk, state);
    if chunk >= end {
        return counts;
    }
    counts.changed(from, state)
}
