// The step and the run, under their names in C. Each calls its namesake in board and promises what that one does.

#![tactic(auto)]

ghost use Rattle.std.specs.Prelude.{◌≡◌};
ghost use Rattle.rules.specs.Answers.{step_word, run_words};
ghost use Rattle.rules.specs.Bus.{images};
ghost use Rattle.rules.specs.Step.{step, left, worded};
ghost use Rattle.rules.specs.Run.{run_of};

#[unsafe(no_mangle)]
pub extern "C" fn wankitare_step(
    state: &mut [u8],
    image: &mut [u8],
    lines: u8,
    pins: u8,
    accesses: &mut [u8],
) -> u64
    ensures { left result state.new image.new accesses.new
        ≡ worded step_word (step images state.old image.old lines pins accesses.old) }
{
    board::wankitare_step(state, image, lines, pins, accesses)
}

#[unsafe(no_mangle)]
pub extern "C" fn wankitare_run(
    state: &mut [u8],
    image: &mut [u8],
    script: &[u8],
    accesses: &mut [u8],
    steps: &mut u64,
    listed: &mut u64,
) -> u64
    ensures { left (record { word = result; steps = steps.new; listed = listed.new })
        state.new image.new accesses.new
        ≡ worded run_words (run_of images state.old image.old script.now accesses.old) }
{
    board::wankitare_run(state, image, script, accesses, steps, listed)
}
