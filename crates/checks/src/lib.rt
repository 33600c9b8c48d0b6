// What a step refuses before it looks at the program: "record not 16 bytes", "record malformed", "image length", lines and pins.

#![tactic(auto)]

ghost use Rattle.std.specs.Prelude.{◌≡◌};
ghost use Rattle.rules.specs.Step.{image_fits, lines_fit};
ghost use Rattle.checks.specs.Checks.{fit_of};

use rules::Refusal;

// "The image is 65,536 bytes; for the 6509, k banks of that size, k = 1, 2, 4, 8 or 16"
fn image_fits(part: u8, size: usize) -> bool
    ensures { result ≡ image_fits part size }
{
    size == 65536 || part == 9 && matches!(size, 131072 | 262144 | 524288 | 1048576)
}

// "line bits 3 to 7 set; NMI on 6508; pins not 0 off the 6508"
pub fn lines_fit(part: u8, lines: u8, pins: u8) -> bool
    ensures { result ≡ lines_fit part lines pins }
{
    lines < 8 && !(part == 8 && lines / 2 % 2 == 1) && (part == 8 || pins == 0)
}

// What step and run refuse first: 1, 2, 3 in order.
pub fn fit(state: &[u8], image: &[u8]) -> Result<(), Refusal>
    ensures { result ≡ fit_of state.now image.now }
{
    let Some(record) = state.as_array() else {
        return Err(Refusal::RecordLength);
    };
    if !formed::well_formed(record) {
        return Err(Refusal::Malformed);
    }
    if !image_fits(state[0], image.len()) {
        return Err(Refusal::ImageLength);
    }
    Ok(())
}
