// What stands next in the input: nothing, too little, or bytes behind their length.
ghost use Rattle.std.specs.Prelude.{◌≡◌, ◌+◌, ◌*◌, ◌≤◌};
ghost use Rattle.counter.specs.Turns.{Came};

#[derive(Drop)]
pub enum Part<'a> {
    Ended,
    Cut,
    // The bytes behind the length.
    Whole(&'a [u8]),
}

pub fn length_of(high: u8, low: u8) -> usize
    ensures { (result ≡ high * 256 + low) × (result ≤ 65535) }
{
    usize::from(u16::from_be_bytes([high, low]))
}

pub fn part_of(s: &[u8]) -> Part<'_>
    ensures { Came s.now result }
{
    match s {
        [] => Part::Ended,
        [_] => Part::Cut,
        [high, low, rest @ ..] => match rest.get(..length_of(*high, *low)) {
            Some(bytes) => Part::Whole(bytes),
            None => Part::Cut,
        },
    }
}
