// The one test of a place.
ghost use Rattle.std.specs.Prelude.{◌≡◌};
ghost use Rattle.memory.specs.Memory.{within};

// Whether n bytes at a place lie in a slice of so many; at + n, which could overflow, is not computed.
pub fn fits(size: usize, at: usize, n: usize) -> bool
    ensures { result ≡ within size at n }
{
    n <= size && at <= size - n
}
