// Making room in one lane.
ghost use Rattle.std.specs.Prelude.{◌≡◌, ◌≤◌, ◌<◌, length};
ghost use Rattle.table.specs.Putting.{opened};

// Room at `at` for v, where the first `count` elements count.
pub fn open<T: Copy>(lane: &mut [T], at: usize, count: usize, v: T)
    requires { (at ≤ count) × (count < length lane.old) }
    ensures { lane.new ≡ opened at count v lane.old }
{
    lane.copy_within(at..count, at + 1);
    lane[at] = v;
}
