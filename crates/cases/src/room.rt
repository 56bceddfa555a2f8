// Rooms of any size, blank, and what a run is lent of them.
ghost use Rattle.std.specs.Prelude.{◌≡◌, ◌<◌, ◌^◌, length};

// A room of so many items, all blank. A function of its own, as the list of a long array is too long to be written out in proofs.
// report has one too, as no library stands on what tests read with.
pub fn blank<T: Copy, const N: usize>(item: T) -> [T; N]
    requires { N < 2 ^ 32 }
    ensures { N ≡ length result }
{
    [item; N]
}

// Marks each place of a room.
pub fn mark_all<T: Drop, F: Fn(usize) -> T>(room: &mut [T], mark: F)
    requires { F.IsAlwaysCallable mark }
{
    for (i, place) in room.iter_mut().enumerate() {
        *place = mark(i);
    }
}

// The buffers that a run is lent.
#[derive(Drop)]
pub struct Lent<'a> {
    pub labels: &'a mut [u64],
    pub edges: &'a mut [[u32; 3]],
    pub log: &'a mut [u32],
    pub verdicts: &'a mut [u32],
}
