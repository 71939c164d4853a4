// One mirror set of a sender, read from the definitions: its image, by a byte a block, and what is due.

/// How many blocks the volumes of the two sets have: three segments, the last of 22 blocks, and two, the last of six.
pub const SIZES: [u32; 2] = [150, 70];

/// An image: each block has one byte throughout. A smaller volume has the first of these blocks.
pub type Image = [u8; 150];

/// Segments of a set.
pub type Segments = [bool; 3];

/// Of each segment that is due the place that frees it, 0 where no place does yet.
pub type Due = [Option<u64>; 3];

/// The segments that a range of blocks touches.
pub fn touched(at: u32, count: u32) -> Segments {
    let mut segments = [false; 3];
    for block in 0..150 {
        if at <= block && block - at < count {
            segments[block as usize / 64] = true;
        }
    }
    segments
}

/// The image after blocks of a range got a byte.
pub fn put(image: &mut Image, at: u32, count: u32, byte: u8) {
    for block in 0..150 {
        if at <= block && block - at < count {
            image[block as usize] = byte;
        }
    }
}

/// A mirror set.
#[derive(Clone, Copy, Debug, PartialEq, Eq)]
pub struct PlainSet {
    pub blocks: u32,
    pub image: Image,
    /// Whether it has no contents.
    pub is_empty: bool,
    pub due: Due,
}

impl PlainSet {
    /// A set of zeros of which nothing is due.
    pub fn new(blocks: u32) -> PlainSet {
        PlainSet {
            blocks,
            image: [0; 150],
            is_empty: false,
            due: [None; 3],
        }
    }

    /// How many segments it has.
    pub fn segs(&self) -> u32 {
        self.blocks.div_ceil(64)
    }

    /// How many blocks a segment has.
    pub fn seg_len(&self, seg: u32) -> u32 {
        self.blocks.saturating_sub(seg.saturating_mul(64)).min(64)
    }

    /// All its segments.
    pub fn all(&self) -> Segments {
        touched(0, self.blocks)
    }

    /// The segments that are due.
    pub fn bits(&self) -> Segments {
        let mut bits = [false; 3];
        for seg in 0..3 {
            bits[seg] = self.due[seg].is_some();
        }
        bits
    }

    /// These segments are due too.
    pub fn note(&mut self, segments: &Segments) {
        for seg in 0..3 {
            if segments[seg] && self.due[seg].is_none() {
                self.due[seg] = Some(0);
            }
        }
    }

    /// No place frees a segment any more.
    pub fn forget_places(&mut self) {
        for seg in 0..3 {
            if self.due[seg].is_some() {
                self.due[seg] = Some(0);
            }
        }
    }

    /// A write to these segments has a place. One that is still to be copied stays so.
    pub fn place(&mut self, segments: &Segments, place: u64, copying: bool) {
        for seg in 0..3 {
            let waits = copying && self.due[seg] == Some(0);
            if segments[seg] && !waits {
                self.due[seg] = Some(place);
            }
        }
    }

    /// The segments that the places up to one free.
    pub fn freed(&self, upto: u64) -> Segments {
        let mut segments = [false; 3];
        for seg in 0..3 {
            if let Some(place) = self.due[seg] {
                segments[seg] = 0 < place && place <= upto;
            }
        }
        segments
    }

    /// These segments are due no more.
    pub fn clear(&mut self, segments: &Segments) {
        for seg in 0..3 {
            if segments[seg] {
                self.due[seg] = None;
            }
        }
    }

    /// The least segment that no place frees yet.
    pub fn least(&self) -> Option<u32> {
        for seg in 0..3 {
            if self.due[seg] == Some(0) {
                return Some(seg as u32);
            }
        }
        None
    }
}
