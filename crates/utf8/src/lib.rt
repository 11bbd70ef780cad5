// UTF-8 (RFC 3629): the character at a position of lent bytes, the bytes of a character, and whether bytes are a text.
// What is no character (overlong, a surrogate, above 10FFFF, cut, a lone tail) is None; nothing is refused here.
#![tactic(auto)]

ghost use Rattle.std.specs.Prelude.{◌≡◌, ◌≤◌, ◌<◌, length};
ghost use Rattle.std.proofs.Math.Seq.{slice};
ghost use Rattle.utf8.specs.Octets.{character_at};
ghost use Rattle.utf8.specs.Texts.{is_text_lem, SeenAt};

mod decode;
pub mod encode;

// A character's number, and how many bytes it has.
#[derive(Clone, Copy)]
pub struct Character {
    pub number: u32,
    pub size: usize,
}

// A character as a loop over bytes meets it.
#[derive(Drop)]
pub struct Seen {
    pub value: u32,
    pub next: usize,
}

// No character: a number beside them, as `chars_of` and `SeenAt` in specs/ have it, so a loop over characters needs no branch for it.
pub const BAD: u32 = 0x110000;

// The character that begins at a position and ends by `end`.
pub fn char_at(b: &[u8], at: usize, end: usize) -> Option<Character>
    requires { end ≤ length b.now }
    ensures { result ≡ character_at b.now at end }
{
    if end <= at {
        return None;
    }
    let left = end - at;
    let x = u32::from(b[at]);
    if x < 0x80 {
        return Some(Character { number: x, size: 1 });
    }
    if left < 2 {
        return None;
    }
    let y = u32::from(b[at + 1]);
    if x < 0xE0 {
        return decode::two(x, y);
    }
    if left < 3 {
        return None;
    }
    let z = u32::from(b[at + 2]);
    if x < 0xF0 {
        return decode::three(x, y, z);
    }
    if left < 4 {
        return None;
    }
    decode::four(x, y, z, u32::from(b[at + 3]))
}

// What `see` gives of any character: apart, so that the loops that call `see` do not carry it.
fn see_long(b: &[u8], at: usize, end: usize) -> Seen
    requires { (at < end) × (end ≤ length b.now) }
    ensures { SeenAt b.now at end result.value result.next }
{
    match char_at(b, at, end) {
        Some(c) => Seen {
            value: c.number,
            next: at + c.size,
        },
        None => Seen {
            value: BAD,
            next: end,
        },
    }
}

// The first character of the bytes from `at` up to `end`, and where the next begins; BAD, and `end`, where none is there. Laid into
// the loops that call it: most bytes are below 0x80, and a call for each would be most of the work.
#[inline(always)]
pub fn see(b: &[u8], at: usize, end: usize) -> Seen
    requires { (at < end) × (end ≤ length b.now) }
    ensures { SeenAt b.now at end result.value result.next }
{
    let x = u32::from(b[at]);
    if x < 0x80 {
        return Seen {
            value: x,
            next: at + 1,
        };
    }
    see_long(b, at, end)
}

// Whether the bytes from `at` up to `end` are UTF-8.
pub fn is_text(b: &[u8], at: usize, end: usize) -> bool
    requires { end ≤ length b.now }
    ensures { result ≡ is_text_lem (slice at end b.now) }
{
    let mut i = at;
    while i < end {
        let first = see(b, i, end);
        if first.value == BAD {
            return false;
        }
        i = first.next;
    }
    true
}
