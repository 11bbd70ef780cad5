// One field at a position of lent bytes: tag, length, value, or cut; and the numbers in it, high byte first.
// Books and questions are made of such fields. Refuses nothing itself: it says what stands there.
#![tactic(auto)]

ghost use Rattle.std.specs.Prelude.{◌≡◌};
ghost use Rattle.field.specs.Fields.{field_at_lem};

mod number;
mod reader;

pub use number::{eight, put_eight, put_front, put_pair, put_two, two};
pub use reader::Reader;

// The three bytes of tag and length that every field begins with.
pub const FRONT: usize = 3;

#[derive(Drop)]
pub enum Field {
    // Nothing is left.
    End,
    // The bytes end inside the field.
    Cut,
    // Its tag, and the length of its value.
    Whole(u8, usize),
}

pub fn field_at(bytes: &[u8], at: usize) -> Field
    ensures { result ≡ field_at_lem bytes.now at }
{
    if bytes.len() <= at {
        return Field::End;
    }
    let left = bytes.len() - at;
    if left < FRONT {
        return Field::Cut;
    }
    let size = usize::from(two(bytes, at + 1));
    if left - FRONT < size {
        return Field::Cut;
    }
    Field::Whole(bytes[at], size)
}
