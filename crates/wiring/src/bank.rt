// Where a step's accesses lie in the image.

ghost use Rattle.std.specs.Prelude.{◌+◌, ◌%◌, ◌≤◌, ◌≡◌};

// The bank that is selected begins at `base` in the image, which has `size` bytes, whole banks. Addresses below `plain` have a rule of the
// part's own. From the widest field to the narrowest: what has no gaps stays in registers.
#[derive(Clone, Copy)]
pub struct Wiring {
    pub base: usize,
    pub size: usize,
    pub plain: u16,
    pub bank: u8,
    pub pins: u8,
    ghost bank_within: { base + 65536 ≤ size },
    ghost whole_banks: { size % 65536 ≡ 0 },
}
