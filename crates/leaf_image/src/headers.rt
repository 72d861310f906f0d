// The item headers of an image: 25 bytes each, lowest byte first. A position counts from the end of the leaf's header.
ghost use Rattle.std.specs.Prelude.{◌≡◌, ◌+◌, ◌≤◌, length, drop};
ghost use Rattle.format.specs.Constants.{item_header};
ghost use Rattle.format.specs.LeafImage.{data_position, data_size_in, key_in};

use format::Key;

// The header at a position of an image that holds all of it.
#[derive(Clone, Copy)]
pub struct Header<'a> {
    pub image: &'a [u8],
    pub at: usize,
    ghost inside: { at + item_header ≤ length image.now },
}

impl<'a> Header<'a> {
    // Where its data begins.
    pub fn position(self) -> u32
        ensures { result ≡ data_position (drop self.entry.at self.entry.image.now) }
    {
        fields::get_u32_le(self.image, self.at + 17)
    }

    // How long its data is.
    pub fn size(self) -> u32
        ensures { result ≡ data_size_in (drop self.entry.at self.entry.image.now) }
    {
        fields::get_u32_le(self.image, self.at + 21)
    }

    // Its key.
    pub fn key(self) -> Key
        ensures { result ≡ key_in (drop self.entry.at self.entry.image.now) }
    {
        Key {
            objectid: fields::get_u64_le(self.image, self.at),
            kind: self.image[self.at + 8],
            offset: fields::get_u64_le(self.image, self.at + 9),
        }
    }
}
