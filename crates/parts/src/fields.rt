// A question's fields: a tag, where its value begins and where it ends, in the holder that it must fit.
ghost use Rattle.std.specs.Prelude.{◌≡◌, ◌≤◌, length};
ghost use Rattle.parts.specs.Format.{field_in};

use field::two;

// The format's bytes, matched by name: an enum would be a conversion beside the same matches.
pub const TRIPLE: u8 = 16;

pub const BOTH: u8 = 17;

pub const EITHER: u8 = 18;

pub const ONLY: u8 = 19;

pub const TEST_FIELD: u8 = 20;

// A field that fits its holder: its tag, where its value begins and ends.
#[derive(Clone, Copy)]
pub struct FieldIn {
    pub tag: u8,
    pub from: usize,
    pub to: usize,
}

// The field at a place of its holder, where it fits.
pub fn field_at(b: &[u8], at: usize, end: usize) -> Option<FieldIn>
    requires { (at ≤ end) × (end ≤ length b.now) }
    ensures { result ≡ field_in b.now at end }
{
    if end - at < 3 {
        return None;
    }
    let len = usize::from(two(b, at + 1));
    let from = at + 3;
    if end - from < len {
        return None;
    }
    Some(FieldIn {
        tag: b[at],
        from,
        to: from + len,
    })
}
