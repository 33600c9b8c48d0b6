// The functions that are called at a desk, under their names in C. Each calls its namesake in desk and promises what that one does.

#![tactic(auto)]

ghost use Rattle.std.specs.Prelude.{◌≡◌};
ghost use Rattle.rules.specs.Answers.{verdict_word};
ghost use Rattle.rules.specs.Bus.{images};
ghost use Rattle.rules.specs.Pages.{page_words, fed};
ghost use Rattle.admission_rules.specs.Admission.{admit};
ghost use Rattle.admission_rules.specs.Safety.{Safe};
ghost use Rattle.assembly_rules.specs.Assembly.{assemble_words};
ghost use Rattle.assembly_rules.specs.Listing.{list_words};

// 0 promises that the image is safe.
#[unsafe(no_mangle)]
pub extern "C" fn wankitare_admit(image: &[u8], c: u8, map: &[u8]) -> u64
    ensures exact { result ≡ verdict_word (admit images image.now c map.now) }
    ensures safe { result ≡ 0 → Safe image.now c map.now }
{
    desk::wankitare_admit(image, c, map)
}

#[unsafe(no_mangle)]
pub extern "C" fn wankitare_pages(
    reads: &mut [u64; 256],
    writes: &mut [u64; 256],
    accesses: &[u8],
) -> u64
    ensures { record { word = result; reads = reads.new; writes = writes.new }
        ≡ page_words (fed reads.old writes.old accesses.now) }
{
    desk::wankitare_pages(reads, writes, accesses)
}

#[unsafe(no_mangle)]
pub extern "C" fn wankitare_assemble(text: &[u8], start: u16, bytes: &mut [u8]) -> u64
    ensures { record { word = result; left = bytes.new } ≡ assemble_words text.now start bytes.old }
{
    desk::wankitare_assemble(text, start, bytes)
}

#[unsafe(no_mangle)]
pub extern "C" fn wankitare_list(bytes: &[u8], start: u16, text: &mut [u8]) -> u64
    ensures { record { word = result; left = text.new } ≡ list_words bytes.now start text.old }
{
    desk::wankitare_list(bytes, start, text)
}
