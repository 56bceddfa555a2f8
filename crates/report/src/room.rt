// Rooms of any size, blank.
ghost use Rattle.std.specs.Prelude.{◌≡◌, ◌<◌, ◌^◌, length, replicate};

// A room of so many items, all blank. A function of its own, as the list of a long array is too long to be written out in proofs.
pub fn blank<T: Copy, const N: usize>(item: T) -> [T; N]
    requires { N < 2 ^ 32 }
    ensures value { result ≡ replicate N item }
    ensures size { N ≡ length result }
{
    [item; N]
}
