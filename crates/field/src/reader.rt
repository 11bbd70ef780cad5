// A reader stands on the lent bytes and remembers its place. What it does is little; the work is `field_at`'s.
ghost use Rattle.std.specs.Prelude.{◌≡◌};
ghost use Rattle.field.specs.Fields.{field_at_lem};

use crate::{Field, field_at};

#[derive(Clone, Copy)]
pub struct Reader<'a> {
    pub src: &'a [u8],
    pub at: usize,
}

impl<'a> Reader<'a> {
    // A reader that stands at a place of the bytes.
    pub fn stand(src: &'a [u8], at: usize) -> Reader<'a>
        ensures { (result.src ≡ src.entry) × (result.at ≡ at) }
    {
        Reader { src, at }
    }

    // The field at the reader's place.
    pub fn field(self) -> Field
        ensures { result ≡ field_at_lem self.entry.src.now self.entry.at }
    {
        field_at(self.src, self.at)
    }

    // The reader, gone on to another place.
    pub fn moved(self, at: usize) -> Reader<'a>
        ensures { (result.src ≡ self.entry.src) × (result.at ≡ at) }
    {
        Reader { at, ..self }
    }
}
