// What two sets of one master that share an overflow volume stand for, read from the definitions: whole images, by a byte
// a block, and lists of chunks.

use avs_model::Kind;

/// Four chunks, the last of eight blocks.
pub const BLOCKS: u32 = 200;

pub const CHUNKS: u32 = 4;

/// How many slots the overflow volume has.
pub const SLOTS: u32 = 3;

/// An image: each block has one byte throughout.
pub type Image = [u8; 200];

/// A list of chunks.
pub type List = [bool; 4];

/// Where the contents of a chunk stand.
#[derive(Clone, Copy, Debug, PartialEq, Eq)]
pub enum Stands {
    OnMaster,
    OnBoth,
    Split,
    OnShadow,
}

/// A master of which block i has byte i.
pub fn new_image() -> Image {
    let mut image = [0; 200];
    for at in 0..BLOCKS {
        put(&mut image, at, 1, at as u8);
    }
    image
}

/// The image after blocks were put into it.
pub fn put(image: &mut Image, at: u32, count: u32, byte: u8) {
    for place in 0..BLOCKS {
        if at <= place && place - at < count {
            image[place as usize] = byte;
        }
    }
}

/// The chunks from one up to another.
pub fn list_of((first, end): (u32, u32)) -> List {
    let mut list = [false; 4];
    for chunk in 0..CHUNKS {
        list[chunk as usize] = first <= chunk && chunk < end;
    }
    list
}

/// The first chunk of a range of blocks, and the end of its chunks.
pub fn chunks_of(at: u32, count: u32) -> (u32, u32) {
    (at / 64, at.saturating_add(count).div_ceil(64))
}

/// How many chunks a list has.
pub fn size(list: &List) -> u32 {
    list.iter().filter(|is_in| **is_in).count() as u32
}

/// A list, by a bit a chunk.
pub fn bits_of(list: &List) -> [u8; 256] {
    let mut bits = [0; 256];
    for chunk in 0..4 {
        if list[chunk] {
            bits[0] |= 1 << chunk;
        }
    }
    bits
}

/// One set: its own slots, its shadow's image, and its lists.
#[derive(Clone, Copy)]
pub struct Plain {
    pub kind: Kind,
    pub own: u32,
    pub shadow: Image,
    pub touched: List,
    pub moved: List,
    pub left: List,
    pub back: List,
    pub is_offline: bool,
    /// Whether its shadow's disk is elsewhere.
    pub is_away: bool,
    /// Which area the last commit named.
    pub live_b: bool,
}

impl Plain {
    /// The set as it is enabled.
    pub fn new(kind: Kind, own: u32, master: &Image) -> Plain {
        Plain {
            kind,
            own,
            shadow: *master,
            touched: [false; 4],
            moved: [false; 4],
            left: [kind == Kind::Ind; 4],
            back: [false; 4],
            is_offline: false,
            is_away: false,
            live_b: false,
        }
    }

    /// The slots that the set needs once chunks of a list are written.
    pub fn need_with(&self, list: &List) -> u32 {
        let mut touched = self.touched;
        for chunk in 0..4 {
            touched[chunk] |= list[chunk];
        }
        if self.kind == Kind::Compact {
            size(&touched)
        } else {
            0
        }
    }

    /// The slots that the set needs.
    pub fn need(&self) -> u32 {
        self.need_with(&[false; 4])
    }

    /// The slots that it needs of an overflow volume.
    pub fn beyond(&self) -> u32 {
        self.need().saturating_sub(self.own)
    }

    /// Its room: its own slots and those of the overflow volume, less what another set needs of these.
    pub fn room(&self, other: u32) -> u32 {
        self.own.saturating_add(SLOTS.saturating_sub(other))
    }

    /// Whether chunks of a list can be saved, where another set needs so many slots of the overflow volume.
    pub fn has_room(&self, list: &List, other: u32) -> bool {
        !self.is_offline && self.need_with(list) <= self.room(other)
    }

    /// A chunk is written, on the master or on the shadow.
    pub fn mark(&mut self, chunk: u32) {
        if chunk < CHUNKS {
            self.touched[chunk as usize] = self.kind != Kind::Ind;
            self.moved[chunk as usize] = true;
            self.left[chunk as usize] = false;
            self.back[chunk as usize] = false;
        }
    }

    /// The chunks of a list are written.
    pub fn mark_list(&mut self, list: &List) {
        for chunk in 0..CHUNKS {
            if list[chunk as usize] {
                self.mark(chunk);
            }
        }
    }

    /// The shadow becomes the master, by a whole copy or not.
    pub fn renew(&mut self, master: &Image, whole: bool) {
        self.shadow = *master;
        for chunk in 0..4 {
            let moved = whole || self.moved[chunk];
            self.left[chunk] = self.kind == Kind::Ind && (self.left[chunk] || moved);
        }
        self.touched = [false; 4];
        self.moved = [false; 4];
        self.is_offline = false;
    }

    /// The master becomes the shadow.
    pub fn restore(&mut self) {
        self.back = self.moved;
        self.moved = [false; 4];
    }

    /// Whether a chunk is to be copied.
    pub fn is_due(&self, chunk: u32) -> bool {
        chunk < CHUNKS && (self.left[chunk as usize] || self.back[chunk as usize])
    }

    /// The least chunk that is to be copied.
    pub fn due(&self) -> Option<u32> {
        for chunk in 0..CHUNKS {
            if self.is_due(chunk) {
                return Some(chunk);
            }
        }
        None
    }

    /// A chunk was copied.
    pub fn copied(&mut self, chunk: u32) {
        if chunk < CHUNKS {
            self.left[chunk as usize] = false;
            self.back[chunk as usize] = false;
        }
    }

    /// Whether chunks can be saved without the shadow's disk.
    pub fn is_settled(&self) -> bool {
        self.kind == Kind::Ind && size(&self.left) == 0 && size(&self.back) == 0
    }

    /// Where the contents of a chunk stand by the lists: of a dependent set a chunk that was not touched stands on the
    /// master alone.
    pub fn state(&self, chunk: u32) -> Stands {
        let chunk = chunk as usize % 4;
        if self.back[chunk] {
            return Stands::OnShadow;
        }
        if self.moved[chunk] {
            return Stands::Split;
        }
        if self.left[chunk] || (self.kind != Kind::Ind && !self.touched[chunk]) {
            return Stands::OnMaster;
        }
        Stands::OnBoth
    }
}
