// The bytes of an input, a chunk at a time.
ghost use Rattle.lines.specs.Chunks.{HandsOn};

use std::io;
use std::io::Read;
use std::ops::ControlFlow;

const CHUNK: usize = 4096;

// Reads an input and hands on its chunks, until it ends or `take` breaks off.
pub fn for_each_chunk<R: Read, E: From<io::Error>, F: FnMut(&[u8]) -> Result<ControlFlow<()>, E>>(
    input: &mut R,
    mut take: F,
) -> Result<(), E>
    requires { F.IsAlwaysCallable take }
    ensures { HandsOn F.FnMut take (R.remaining input.old) (R.remaining input.new) result }
{
    // an array, since nothing is allocated here
    let mut buffer = [0u8; CHUNK];
    // a loop that is proved to end has an end, though no input has so many chunks
    for _turn in 0..u64::MAX {
        let count = input.read(&mut buffer)?;
        if count == 0 {
            return Ok(());
        }
        if take(&buffer[..count])?.is_break() {
            return Ok(());
        }
    }
    Ok(())
}
