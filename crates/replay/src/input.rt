// The log through a lent buffer, whose first bytes are what was read and is not yet taken.
ghost use Rattle.std.specs.Prelude.{◌≤◌, length};
ghost use Rattle.replay.specs.Buffers.{Filled, Came};

use crate::failure::Failure;
use std::io::Read;

// Reads on until at least `least` bytes are there, or the input ends. Answers how many there are. A read may bring any number of them: no index is counted.
pub fn fill<R: Read>(
    log: &mut R,
    bytes: &mut [u8],
    have: usize,
    least: usize,
) -> Result<usize, Failure>
    requires have_in_bounds { have ≤ length bytes.old }
    requires least_in_bounds { least ≤ length bytes.old }
    ensures filled { Filled bytes.old have bytes.new result }
    ensures came { Came (R.remaining log.old) (R.remaining log.new) have least bytes.new result }
{
    let mut there = have;
    while there < least {
        let got = log.read(&mut bytes[there..]).map_err(Failure::Reading)?;
        if got == 0 {
            break;
        }
        there += got;
    }
    Ok(there)
}
