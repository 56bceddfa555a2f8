// Going through the cases of an input, one after the other.
use std::io;

// Does `one` at each case's place below `end`, the first at 0; it answers the place after the case, and none for one that is
// malformed. How many cases there were before the end, or before one that is malformed or has no later place after it.
pub fn each_case<F: FnMut(usize) -> io::Result<Option<usize>>>(
    end: usize,
    mut one: F,
) -> io::Result<u64>
    requires { F.IsAlwaysCallable one }
{
    let mut cases: u64 = 0;
    let mut at = 0;
    // No `for`: where a case ends is known only once it is read.
    while at < end {
        match one(at)? {
            Some(next) if at < next => at = next,
            _ => return Ok(cases),
        }
        cases = cases.wrapping_add(1);
    }
    Ok(cases)
}
