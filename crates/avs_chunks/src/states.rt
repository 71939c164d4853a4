// States of chunks in bytes, two bits each.
ghost use Rattle.std.specs.Prelude.{◌≡◌, ◌≢◌, ◌⊎◌, ℕ, ◌+◌, ◌*◌, ◌/◌, ◌<◌, ◌≤◌, ◌^◌, ◌==◌, if◌then◌else◌, filter, length};
ghost use Rattle.std.specs.List.{range_with_len};
ghost use Rattle.avs_chunks.specs.States.{quarter, state_in, code_of, on_master};

/// Where the contents of a chunk stand.
#[derive(Clone, Copy, Debug, PartialEq, Eq)]
pub enum ChunkState {
    /// On the master alone.
    OnMaster,
    /// On both disks, and they are the same.
    OnBoth,
    /// The master's on its disk, and the shadow's on its own.
    Split,
    /// On the shadow's disk alone.
    OnShadow,
}

impl ChunkState {
    /// The two bits that stand for it.
    pub(crate) fn code(self) -> u8
        ensures is { result ≡ code_of self }
        ensures small { result < 4 }
    {
        self as u8
    }

    // The state that two bits stand for.
    fn of_code(code: u8) -> ChunkState
        requires { code < 4 }
        ensures { code_of result ≡ code }
    {
        match code {
            0 => ChunkState::OnMaster,
            1 => ChunkState::OnBoth,
            2 => ChunkState::Split,
            _ => ChunkState::OnShadow,
        }
    }
}

/// The chunks whose states a block has.
pub(crate) const STATES: u32 = 2048;

// A place of the four of a byte.
fn quarter(byte: u8, place: u32) -> u8
    requires { place < 4 }
    ensures is { result ≡ quarter byte place }
    ensures small { result < 4 }
{
    (byte >> (2 * place)) % 4
}

// The byte with a state at a place.
fn with_quarter(byte: u8, place: u32, state: u8) -> u8
    requires place { place < 4 }
    requires state { state < 4 }
    ensures now { quarter result place ≡ state }
    ensures others { (k : ℕ) → k < 4 → k ≢ place → quarter result k ≡ quarter byte k }
{
    match place {
        0 => byte / 4 * 4 + state,
        1 => byte / 16 * 16 + state * 4 + byte % 4,
        2 => byte / 64 * 64 + state * 16 + byte % 16,
        _ => state * 64 + byte % 64,
    }
}

/// The state of a chunk.
pub(crate) fn state_in(bytes: &[u8], chunk: u32) -> ChunkState
    requires { chunk / 4 < length bytes.now }
    ensures { code_of result ≡ state_in bytes.now chunk }
{
    ChunkState::of_code(quarter(bytes[chunk as usize / 4], chunk % 4))
}

/// Whether a chunk is in a state.
pub(crate) fn is_in(bytes: &[u8], chunk: u32, state: ChunkState) -> bool
    requires { chunk / 4 < length bytes.now }
    ensures { result ≡ (state_in bytes.now chunk == code_of state) }
{
    state_in(bytes, chunk).code() == state.code()
}

/// Sets the state of a chunk.
pub(crate) fn set_state(bytes: &mut [u8], chunk: u32, state: ChunkState)
    requires { chunk / 4 < length bytes.old }
    ensures len { length bytes.new ≡ length bytes.old }
    ensures now { state_in bytes.new chunk ≡ code_of state }
    ensures others { (c : ℕ) → c ≢ chunk → state_in bytes.new c ≡ state_in bytes.old c }
{
    let at = chunk as usize / 4;
    bytes[at] = with_quarter(bytes[at], chunk % 4, state.code());
}

/// Makes the states of chunks from one on zeros.
pub(crate) fn clear_from(bytes: &mut [u8], first: u32)
    requires { length bytes.old < 2 ^ 29 }
    ensures len { length bytes.new ≡ length bytes.old }
    ensures before { (c : ℕ) → c < first → state_in bytes.new c ≡ state_in bytes.old c }
    ensures behind { (c : ℕ) → first ≤ c → state_in bytes.new c ≡ 0 }
{
    let end = 4 * bytes.len() as u32;
    for chunk in first..end {
        set_state(bytes, chunk, ChunkState::OnMaster);
    }
}

/// 1 where it holds.
pub(crate) fn one_if(holds: bool) -> u32
    ensures { result ≡ (if holds then 1 else 0) }
{
    if holds { 1 } else { 0 }
}

/// How many of the first chunks are in a state.
pub(crate) fn count_in(bytes: &[u8], end: u32, state: ChunkState) -> u32
    requires { end ≤ 4 * length bytes.now }
    ensures counted { result ≡ length (filter (λ c. state_in bytes.now c == code_of state) (range_with_len 0 end)) }
    ensures most { result ≤ end }
{
    let mut count = 0;
    for chunk in 0..end {
        count += one_if(is_in(bytes, chunk, state));
    }
    count
}

/// The end of the chunks from one on, below `end`, that stand on the master alone as that one does, or do not.
pub(crate) fn run_end(bytes: &[u8], first: u32, end: u32) -> u32
    requires some { first < end }
    requires inside { end ≤ 4 * length bytes.now }
    ensures more { first < result }
    ensures within { result ≤ end }
    ensures same { (c : ℕ) → first ≤ c → c < result → (state_in bytes.now c == on_master) ≡ (state_in bytes.now first == on_master) }
{
    let alone = is_in(bytes, first, ChunkState::OnMaster);
    let mut chunk = first + 1;
    while chunk < end && is_in(bytes, chunk, ChunkState::OnMaster) == alone {
        chunk += 1;
    }
    chunk
}
