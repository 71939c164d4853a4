// The limits of scripts, as the code has them.

// A volume has at least so many blocks.
pub(crate) const LEAST_VOLUME: u32 = 64;

// And at most so many.
pub(crate) const LARGEST_VOLUME: u32 = 262_144;

// The volumes of both hosts have so many blocks together.
pub(crate) const ALL_VOLUMES: u32 = 1_048_576;

// The shadow sets of a group.
pub(crate) const MOST_GROUP_SETS: u32 = 16;

// The groups of a host.
pub(crate) const MOST_GROUPS: u32 = 16;

// The imports of a host.
pub(crate) const MOST_IMPORTS: u32 = 64;

// The overflow volumes of a host.
pub(crate) const MOST_OVERFLOWS: u32 = 64;

// The texts of commands.
pub(crate) const MOST_TEXTS: u32 = 16;

// The lines of a text.
pub(crate) const MOST_LINES: u32 = 1024;

// The greatest session number, place and stamp.
pub(crate) const LARGEST_NUMBER: u64 = 1 << 62;

// The chunks whose states a block of a bitmap holds.
pub(crate) const BITMAP_CHUNKS: u32 = 2048;

// The chunks whose entries a block of a compact set's bitmap holds.
pub(crate) const COMPACT_CHUNKS: u32 = 128;

// The segments whose bits a block of an import's bitmap holds.
pub(crate) const IMPORT_SEGMENTS: u32 = 4096;
