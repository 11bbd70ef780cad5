// A character's bytes: how many, and laid into lent bytes.
ghost use Rattle.std.specs.Prelude.{◌≡◌, ◌++◌, ◌+◌, ◌%◌, ◌≤◌, length, take, drop};
ghost use Rattle.utf8.specs.Characters.{char_bytes};

pub fn size_of(c: u32) -> usize
    ensures { result ≡ length (char_bytes c) }
{
    match c {
        0..=0x7F => 1,
        0x80..=0x7FF => 2,
        0x800..=0xFFFF => 3,
        _ => 4,
    }
}

fn tail(bits: u32) -> u8
    ensures { result ≡ 0x80 + bits % 64 }
{
    (0x80 + bits % 64) as u8
}

pub fn put_char(out: &mut [u8], at: usize, c: u32)
    requires { (c ≤ 0x10FFFF) × (at + length (char_bytes c) ≤ length out.old) }
    ensures { out.new ≡ take at out.old ++ char_bytes c ++ drop (at + length (char_bytes c)) out.old }
{
    if c <= 0x7F {
        out[at] = c as u8;
        return;
    }
    if c <= 0x7FF {
        out[at] = (0xC0 + c / 64) as u8;
        out[at + 1] = tail(c);
        return;
    }
    if c <= 0xFFFF {
        out[at] = (0xE0 + c / 4096) as u8;
        out[at + 1] = tail(c / 64);
        out[at + 2] = tail(c);
        return;
    }
    out[at] = (0xF0 + c / 262144) as u8;
    out[at + 1] = tail(c / 4096);
    out[at + 2] = tail(c / 64);
    out[at + 3] = tail(c);
}
