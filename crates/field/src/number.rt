// Numbers of 16 and 64 bits in bytes, high byte first: read, and written.
ghost use Rattle.std.specs.Prelude.{◌≡◌, ◌+◌, ◌≤◌, [], ◌∷◌, length};
ghost use Rattle.field.specs.Numbers.{two_at, eight_at, two_bytes, eight_bytes, written};

pub fn two(bytes: &[u8], at: usize) -> u16
    requires { at + 2 ≤ length bytes.now }
    ensures { result ≡ two_at bytes.now at }
{
    u16::from_be_bytes([bytes[at], bytes[at + 1]])
}

pub fn eight(bytes: &[u8], at: usize) -> u64
    requires { at + 8 ≤ length bytes.now }
    ensures { result ≡ eight_at bytes.now at }
{
    u64::from_be_bytes([
        bytes[at],
        bytes[at + 1],
        bytes[at + 2],
        bytes[at + 3],
        bytes[at + 4],
        bytes[at + 5],
        bytes[at + 6],
        bytes[at + 7],
    ])
}

pub fn put_pair(bytes: &mut [u8], at: usize, x: u8, y: u8)
    requires { at + 2 ≤ length bytes.old }
    ensures { bytes.new ≡ written bytes.old at (x ∷ y ∷ []) }
{
    bytes[at..at + 2].copy_from_slice(&[x, y]);
}

// The low 16 bits.
pub fn put_two(bytes: &mut [u8], at: usize, n: u64)
    requires { at + 2 ≤ length bytes.old }
    ensures { bytes.new ≡ written bytes.old at (two_bytes n) }
{
    bytes[at..at + 2].copy_from_slice(&((n % 65536) as u16).to_be_bytes());
}

// Tag and length, which every field begins with.
pub fn put_front(bytes: &mut [u8], at: usize, tag: u8, size: u64)
    requires { at + 3 ≤ length bytes.old }
    ensures { bytes.new ≡ written bytes.old at (tag ∷ two_bytes size) }
{
    bytes[at] = tag;
    put_two(bytes, at + 1, size);
}

pub fn put_eight(bytes: &mut [u8], at: usize, n: u64)
    requires { at + 8 ≤ length bytes.old }
    ensures { bytes.new ≡ written bytes.old at (eight_bytes n) }
{
    bytes[at..at + 8].copy_from_slice(&n.to_be_bytes());
}
