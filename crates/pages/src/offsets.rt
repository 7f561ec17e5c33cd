//! Numbers of one to four bytes, read where they lie.

ghost use Rattle.std.specs.Prelude.{◌≡◌, ◌+◌, ◌-◌, ◌*◌, ◌^◌, ◌≤◌, length};
ghost use Rattle.pages.specs.inside.Numbers.{number_at};

/// What the neighbours of a packed list are read from: the first of them, and how far each other is above it.
#[derive(Clone, Copy)]
pub(crate) struct PackedOffsets<'a> {
    pub(crate) first: u32,
    /// How many bytes each offset takes, and the mask that cuts them out of four.
    pub(crate) width: usize,
    pub(crate) mask: u32,
    pub(crate) len: usize,
    pub(crate) offsets: &'a [u8],
}

impl PackedOffsets<'_> {
    /// These offsets with a width and a mask that are literals of the caller, for which a loop is compiled.
    #[inline(always)]
    pub(crate) fn of_width(self, width: usize, mask: u32) -> Self
        requires width { width ≡ self.width }
        requires mask { mask ≡ self.mask }
        ensures { result ≡ self.entry }
    {
        PackedOffsets {
            first: self.first,
            width,
            mask,
            len: self.len,
            offsets: self.offsets,
        }
    }
}

/// The number in the four bytes from a position on, the low byte first.
#[inline(always)]
pub(crate) fn number(bytes: &[u8], position: usize) -> u32
    requires { position + 4 ≤ length bytes.now }
    ensures { result ≡ number_at 4 position bytes.now }
{
    u32::from_le_bytes([
        bytes[position],
        bytes[position + 1],
        bytes[position + 2],
        bytes[position + 3],
    ])
}

/// The number at an index of numbers of `width` bytes each, which the mask cuts out of four.
#[inline(always)]
pub(crate) fn offset(bytes: &[u8], width: usize, mask: u32, index: usize) -> u32
    requires width { width ≤ 4 }
    requires mask { mask ≡ 2 ^ (8 * width) - 1 }
    requires room { width * index + 4 ≤ length bytes.now }
    ensures { result ≡ number_at width (width * index) bytes.now }
{
    number(bytes, width * index) & mask
}
