// The step and the run, as a blade's board calls them: numbers and byte slices in, one word out.

#![tactic(auto)]

ghost use Rattle.std.specs.Prelude.{◌≡◌};
ghost use Rattle.rules.specs.Answers.{step_word, run_words};
ghost use Rattle.rules.specs.Bus.{images};
ghost use Rattle.rules.specs.Step.{step, left, worded};
ghost use Rattle.rules.specs.Run.{run_of};

// "Step: 1 to 6 in order"
pub fn wankitare_step(
    state: &mut [u8],
    image: &mut [u8],
    lines: u8,
    pins: u8,
    accesses: &mut [u8],
) -> u64
    ensures { left result state.new image.new accesses.new
        ≡ worded step_word (step images state.old image.old lines pins accesses.old) }
{
    if let Err(e) = checks::fit(state, image) {
        return words::refusal_word(e);
    }
    let bytes = state.as_mut_array::<16>().unwrap();
    if lines == 0 && pins == 0 {
        return step::quiet(bytes, image, accesses);
    }
    step::step(bytes, image, lines, pins, accesses)
}

pub fn wankitare_run(
    state: &mut [u8],
    image: &mut [u8],
    script: &[u8],
    accesses: &mut [u8],
    steps: &mut u64,
    listed: &mut u64,
) -> u64
    ensures { left (record { word = result; steps = steps.new; listed = listed.new })
        state.new image.new accesses.new
        ≡ worded run_words (run_of images state.old image.old script.now accesses.old) }
{
    run::run(state, image, script, accesses, steps, listed)
}
