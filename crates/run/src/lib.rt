// A run: "a script of 2 bytes per step (lines, pins)".

#![tactic(auto)]

ghost use Rattle.std.specs.Prelude.{◌≡◌, ◌%◌, length, Err};
ghost use Rattle.rules.specs.Answers.{step_word, run_words, ended};
ghost use Rattle.rules.specs.Bus.{images};
ghost use Rattle.rules.specs.Step.{step, left, worded};
ghost use Rattle.rules.specs.Run.{start, play, run_of};
ghost use Rattle.checks.specs.Checks.{Fits};

use rules::Refusal;

// Puts down the steps done and the accesses listed, and answers the word.
fn told(steps: &mut u64, listed: &mut u64, done: usize, count: usize, word: u64) -> u64
    ensures { (result ≡ word) × (steps.new ≡ done) × (listed.new ≡ count) }
{
    *steps = done as u64;
    *listed = count as u64;
    word
}

// Refused "before anything".
fn refused(steps: &mut u64, listed: &mut u64, why: Refusal) -> u64
    ensures { record { word = result; steps = steps.new; listed = listed.new } ≡ run_words (ended 0 0 (Err why)) }
{
    told(steps, listed, 0, 0, words::refusal_word(why))
}

// The word of the step with these lines and pins.
fn turn(state: &mut [u8; 16], image: &mut [u8], lines: u8, pins: u8, list: &mut [u8]) -> u64
    requires { Fits state.old image.old }
    ensures { left result state.new image.new list.new
        ≡ worded step_word (step images state.old image.old lines pins list.old) }
{
    if lines == 0 && pins == 0 {
        return step::quiet(state, image, list);
    }
    step::step(state, image, lines, pins, list)
}

// Step by step to the script's end: "each step's list is written into the rest of the access buffer"; "a refusal in a step ends it, with
// the steps done standing and counted".
fn play(
    state: &mut [u8; 16],
    image: &mut [u8],
    script: &[u8],
    accesses: &mut [u8],
    steps: &mut u64,
    listed: &mut u64,
) -> u64
    requires { Fits state.old image.old × (length script.now % 2 ≡ 0) }
    ensures { left (record { word = result; steps = steps.new; listed = listed.new })
        state.new image.new accesses.new
        ≡ worded run_words (play images script.now (start state.old image.old accesses.old)) }
{
    let (turns, _rest) = script.as_chunks::<2>();
    let mut count: usize = 0;
    for (done, &[lines, pins]) in turns.iter().enumerate() {
        let word = turn(state, image, lines, pins, &mut accesses[8 * count..]);
        if word % 256 != 0 {
            return told(steps, listed, done, count, word);
        }
        count += (word / 256) as usize;
    }
    told(steps, listed, turns.len(), count, 0)
}

// "Run: 1, 2, 3, 7 before anything". Answers the word, and puts down the steps done and the accesses listed.
pub fn run(
    state: &mut [u8],
    image: &mut [u8],
    script: &[u8],
    accesses: &mut [u8],
    steps: &mut u64,
    listed: &mut u64,
) -> u64
    ensures { left (record { word = result; steps = steps.new; listed = listed.new })
        state.new image.new accesses.new
        ≡ worded run_words (run_of images state.old image.old script.now accesses.old) }
{
    if let Err(e) = checks::fit(state, image) {
        return refused(steps, listed, e);
    }
    if script.len() % 2 != 0 {
        return refused(steps, listed, Refusal::ScriptLength);
    }
    let bytes = state.as_mut_array::<16>().unwrap();
    play(bytes, image, script, accesses, steps, listed)
}
