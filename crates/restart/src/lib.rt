// The restart file, as a blade's board calls for it: its reader, and where an append goes.

#![tactic(auto)]

ghost use Rattle.std.specs.Prelude.{◌≡◌};
ghost use Rattle.rules.specs.Answers.{restart_word, append_word};
ghost use Rattle.rules.specs.Restart.{restart, append_at};

use rules::{Found, Numbers, Refusal};

// "Restart: 8, then 2 for the last whole record"
#[tactic(auto, unfolding(rules::specs::Restart::restart))]
fn restart(file: &[u8]) -> Result<Found, Refusal>
    ensures { result ≡ restart file.now }
{
    let size = file.len();
    if !(16..=65536).contains(&size) {
        return Err(Refusal::FileLength);
    }
    let at = size / 16 * 16 - 16;
    let record = file[at..].first_chunk().unwrap();
    if !formed::well_formed(record) {
        return Err(Refusal::Malformed);
    }
    Ok(Found {
        at: at as u16,
        tail: (size % 16) as u8,
    })
}

// "An append drops a tail first and never takes the file past 65,536 bytes."
#[tactic(auto, unfolding(rules::specs::Restart::append_at))]
fn append_at(size: u64) -> Result<u16, Refusal>
    ensures { result ≡ append_at size }
{
    if size < 65536 {
        Ok((size / 16 * 16) as u16)
    } else {
        Err(Refusal::FileLength)
    }
}

pub fn wankitare_restart(file: &[u8]) -> u64
    ensures { result ≡ restart_word (restart file.now) }
{
    match restart(file) {
        Ok(Found { at, tail }) => words::packed(Numbers {
            number: 0,
            small: tail,
            large: at,
        }),
        Err(e) => words::refusal_word(e),
    }
}

pub fn wankitare_append_at(file_len: u64) -> u64
    ensures { result ≡ append_word (append_at file_len) }
{
    match append_at(file_len) {
        Ok(place) => words::packed(Numbers {
            number: 0,
            small: 0,
            large: place,
        }),
        Err(full) => words::refusal_word(full),
    }
}
