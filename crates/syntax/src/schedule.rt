//! The schedule's part of a source.
ghost use Rattle.std.specs.Prelude.{◌≡◌};

use apply_options::Setting;

/// A text in quotes.
#[derive(Drop)]
pub struct QuotedText {
    bytes: Vec<u8>,
}

impl QuotedText {
    /// The text of these bytes, quotes and all.
    pub fn new(bytes: Vec<u8>) -> QuotedText
        ensures { result.bytes ≡ bytes }
    {
        QuotedText { bytes }
    }

    /// Its bytes, quotes and all.
    pub fn bytes(&self) -> &[u8]
        ensures { result.now ≡ self.now.bytes.items }
    {
        &self.bytes
    }
}

/// A schedule call with its arguments, of which there is one at least. `at` is the offset of its first
/// token in the text.
pub struct Call {
    pub at: usize,
    pub setting: Setting,
    pub first: QuotedText,
    pub more: Vec<QuotedText>,
}

impl Drop for Call {
    fn drop(self) {
        let Call {
            at: _,
            setting: _,
            first: _,
            more: _,
        } = self;
    }
}

/// Calls on the program, one after the other: `program->first->more;`
pub struct Chain {
    pub first: Call,
    pub more: Vec<Call>,
}

impl Drop for Chain {
    fn drop(self) {
        let Chain { first: _, more: _ } = self;
    }
}
