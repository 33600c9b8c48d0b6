// The argument that the assembler and the lister take: the start. The programs ask the system for their arguments; what follows from its
// answers is here. `only` asks the system itself, for callers with an argument of another kind.

#![tactic(auto)]

ghost use Rattle.std.specs.Prelude.{◌≡◌, ◌≤◌, length, IfSome};
ghost use Rattle.arguments.specs.Start.{start_of, only_start};

use std::env::{Env, FillError};

// The only argument, put into the room that is lent; nothing where there is none, or a second one, or it is longer than the room.
pub fn only<'a>(rt: &impl Env, room: &'a mut [u8]) -> Option<&'a [u8]>
    ensures bound { IfSome result (λ argument. length argument.now ≤ length room.old) }
    // the front of the room itself, and no copy
    ensures place { IfSome result (λ argument. argument.ref_ptr ≡ room.entry.ref_ptr) }
{
    if !matches!(rt.arg(2, &mut []), Err(FillError::NotPresent)) {
        return None;
    }
    let size = rt.arg(1, room).ok()?;
    Some(&room[..size])
}

// "the first argument is the start, four hexadecimal digits"
pub fn start_of(argument: &[u8]) -> Option<u16>
    ensures { result ≡ start_of argument.now }
{
    match operands::number(argument, 0) {
        Some(found) if found.four && found.at == argument.len() => Some(found.value),
        _ => None,
    }
}

// The start that the first argument says, which stands at the front of the room; nothing where there is none, or a second one, or it is
// longer than the room.
#[tactic(auto, unfolding(crate::specs::Start::only_start))]
pub fn only_start(
    first: Result<usize, FillError>,
    second: Result<usize, FillError>,
    room: &[u8; 4],
) -> Option<u16>
    ensures { result ≡ only_start first second room.now }
{
    match (first, second) {
        (Ok(size), Err(FillError::NotPresent)) => start_of(room.get(..size)?),
        _ => None,
    }
}

#[cfg(test)]
mod tests;
