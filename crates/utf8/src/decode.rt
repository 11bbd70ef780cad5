// What two, three or four bytes are, by their number: it must be too large for fewer bytes, no surrogate and not above 10FFFF.
ghost use Rattle.std.specs.Prelude.{◌≡◌, cond, ◌≤◌};
ghost use Rattle.utf8.specs.Characters.{within};
ghost use Rattle.utf8.specs.Octets.{is_tail, is_two, is_three, is_four, two_number, three_number, four_number, whole};

use crate::Character;

fn is_tail(x: u32) -> bool
    ensures { result ≡ is_tail x }
{
    (0x80..=0xBF).contains(&x)
}

fn is_surrogate(c: u32) -> bool
    ensures { result ≡ within 0xD800 0xDFFF c }
{
    (0xD800..=0xDFFF).contains(&c)
}

pub fn two(x: u32, y: u32) -> Option<Character>
    requires { x ≤ 0xDF }
    ensures { result ≡ cond (is_two x y) (whole (two_number x y) 2) None }
{
    if x < 0xC2 || !is_tail(y) {
        return None;
    }
    let number = (x - 0xC0) * 64 + (y - 0x80);
    Some(Character { number, size: 2 })
}

pub fn three(x: u32, y: u32, z: u32) -> Option<Character>
    requires { (0xE0 ≤ x) × (x ≤ 0xEF) }
    ensures { result ≡ cond (is_three x y z) (whole (three_number x y z) 3) None }
{
    if !is_tail(y) || !is_tail(z) {
        return None;
    }
    let number = (x - 0xE0) * 4096 + (y - 0x80) * 64 + (z - 0x80);
    let overlong = number < 0x800;
    let surrogate = is_surrogate(number);
    if overlong || surrogate {
        return None;
    }
    Some(Character { number, size: 3 })
}

pub fn four(x: u32, y: u32, z: u32, w: u32) -> Option<Character>
    requires { 0xF0 ≤ x }
    ensures { result ≡ cond (is_four x y z w) (whole (four_number x y z w) 4) None }
{
    if x > 0xF4 || !is_tail(y) || !is_tail(z) || !is_tail(w) {
        return None;
    }
    let number = (x - 0xF0) * 262144 + (y - 0x80) * 4096 + (z - 0x80) * 64 + (w - 0x80);
    let overlong = number < 0x10000;
    let above = number > 0x10FFFF;
    if overlong || above {
        return None;
    }
    Some(Character { number, size: 4 })
}
