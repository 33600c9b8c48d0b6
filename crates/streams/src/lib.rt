// What the programs share: a stream is read into a buffer, and where something failed it is told.

#![tactic(auto)]

ghost use Rattle.std.specs.Prelude.{◌≡◌, ℕ, ◌<◌, ◌≤◌, length, take, Ok, Some, None, IfOk, OnErr};
ghost use Rattle.std.specs.Io.KnownBytes.{Consumes, IsAtEnd};

use std::io;
use std::io::Read;

// Reads until the buffer is full, or the input ends. Where a read fails, what was read before it is lost to who reads on.
pub fn fill<R: Read, const N: usize>(input: &mut R, buffer: &mut [u8; N]) -> io::Result<usize>
    ensures in_bounds { IfOk result (λ count. count ≤ length buffer.new) }
    ensures bytes { IfOk result (λ count. Consumes (R.remaining input.old) (R.remaining input.new) (take count buffer.new)) }
    ensures end { IfOk result (λ count. count < length buffer.new → IsAtEnd (R.remaining input.new)) }
    ensures lost { OnErr result
        ((count : ℕ) × (count ≤ length buffer.new) × Consumes (R.remaining input.old) (R.remaining input.new) (take count buffer.new)) }
{
    let mut done = 0;
    while done < buffer.len() {
        // The checker lends no part of an array of any length, but of a slice.
        let room = &mut buffer[..];
        let n = input.read(&mut room[done..])?;
        if n == 0 {
            break;
        }
        done += n;
    }
    Ok(done)
}

// What failed, and why: in the system's words, without the number that std puts behind them.
fn tell(rt: &(impl Eprint + Alloc), what: &str, e: io::Error) -> io::Result<()> {
    let said = e.to_string(rt.alloc())?;
    match said.as_str().split_once(" (os error ") {
        Some((reason, _number)) => eprintln!(rt; "{what}: {reason}"),
        None => eprintln!(rt; "{what}: {said}"),
    }
}

// The value, or nothing where `what` failed, which is told.
pub fn or_tell<T: Drop>(
    rt: &(impl Eprint + Alloc),
    what: &str,
    answer: io::Result<T>,
) -> io::Result<Option<T>>
    ensures value { IfOk answer (λ value. result ≡ Ok (Some value)) }
    ensures failed { OnErr answer (IfOk result (λ told. told ≡ None)) }
{
    match answer {
        Ok(value) => Ok(Some(value)),
        Err(e) => {
            tell(rt, what, e)?;
            Ok(None)
        }
    }
}
