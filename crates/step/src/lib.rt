// One step: what is refused, which event is taken, and what a step leaves.

#![tactic(auto)]

ghost use Rattle.std.specs.Prelude.{◌≡◌, ℕ, ◌%◌, ◌<◌, ◌≤◌, List, length, ◌==◌};
ghost use Rattle.rules.specs.declared.Event.{Event};
ghost use Rattle.rules.specs.declared.Event.TheVariants.{Execute};
ghost use Rattle.rules.specs.declared.Refusal.TheVariants.{Undefined};
ghost use Rattle.rules.specs.declared.State.{State};
ghost use Rattle.rules.specs.Answers.{step_word, refusal_word};
ghost use Rattle.rules.specs.Interrupts.{event_of, interrupt, reset};
ghost use Rattle.rules.specs.Bus.{images, reset_bus};
ghost use Rattle.rules.specs.Record.{record_of};
ghost use Rattle.rules.specs.Step.{opcode_of, step, left, worded};
ghost use Rattle.checks.specs.Checks.{Fits};
ghost use Rattle.laws.specs.Goes.{Does};
ghost use Rattle.laws.specs.States.{moved};
ghost use Rattle.processor.specs.Executed.{Begins};
ghost use Rattle.step.specs.Parts.{reset_of, counted, Sized, Counted, Taken, advanced};

use rules::{Event, Numbers, Refusal};

// "First that applies: RES; NMI asserted with last level 0; IRQ with I = 0; else the instruction at PC."
#[tactic(auto, unfolding(rules::specs::Interrupts::event_of))]
fn event_of(lines: u8, level: u8, i: bool) -> Event
    ensures { (s : State) → i ≡ s.cpu.p.i → result ≡ event_of lines (level == 1) s.cpu }
{
    if lines % 2 == 1 {
        Event::Res
    } else if lines / 2 % 2 == 1 && level != 1 {
        Event::Nmi
    } else if lines / 4 % 2 == 1 && !i {
        Event::Irq
    } else {
        Event::Execute
    }
}

fn event_in(lines: u8, state: &[u8; 16]) -> Event
    ensures { (s : State) → state.now ≡ record_of s → result ≡ event_of lines s.nmi s.cpu }
{
    let f = state::flags_of(state);
    event_of(lines, state[10], f.i)
}

fn set_cycles(state: &mut [u8; 16], n: u32)
    ensures { (s : State) → state.old ≡ record_of s →
        state.new ≡ record_of (record { cpu = s.cpu; bus = s.bus; nmi = s.nmi; cycles = n }) }
{
    let [a, b, c, d] = n.to_le_bytes();
    state[12] = a;
    state[13] = b;
    state[14] = c;
    state[15] = d;
}

// "Every step .. answers its number of accesses and adds it to the record's count."
fn add_cycles(state: &mut [u8; 16], count: usize)
    requires { count ≤ 7 }
    ensures { (s : State) → state.old ≡ record_of s → state.new ≡ record_of (counted count s) }
{
    let n = u32::from_le_bytes([state[12], state[13], state[14], state[15]]);
    set_cycles(state, n.wrapping_add(count as u32));
}

fn reset_register(part: u8) -> u8
    ensures { result ≡ reset_of part }
{
    if part == 9 { 15 } else { 0 }
}

// "6508 registers 0 or 6509 registers 15, both before its first access"
fn reset_registers(state: &mut [u8; 16])
    ensures { (s : State) → state.old ≡ record_of s →
        state.new ≡ record_of (moved s.cpu (reset_bus s.bus) s) }
{
    let v = reset_register(state[0]);
    state[8] = v;
    state[9] = v;
}

// RES, counted.
fn reset(pins: u8, state: &mut [u8; 16], image: &[u8], list: &mut [u8])
    requires { Sized (length image.now) (length list.old) }
    ensures { (s : State) → Begins s state.old pins (length image.now) →
        Counted (reset s.cpu) (moved s.cpu (reset_bus s.bus) s) image.now list.old 7 state.new
        image.now list.new }
{
    reset_registers(state);
    let w = wiring::wire(state, pins, image.len());
    interrupts::reset(state, w, image, list);
    add_cycles(state, 7);
}

// IRQ or NMI, counted.
fn interrupt(vector: u16, pins: u8, state: &mut [u8; 16], image: &mut [u8], list: &mut [u8])
    requires { (vector < 65535) × Sized (length image.old) (length list.old) }
    ensures { (s : State) → Begins s state.old pins (length image.old) →
        Counted (interrupt vector s.cpu) s image.old list.old 7 state.new image.new
        list.new }
{
    let w = wiring::wire(state, pins, image.len());
    interrupts::interrupt(vector, state, w, image, list);
    add_cycles(state, 7);
}

// The instruction at PC, counted. Answers its accesses, or 0 where the opcode is undefined.
fn execute(pins: u8, state: &mut [u8; 16], image: &mut [u8], list: &mut [u8]) -> usize
    requires { Sized (length image.old) (length list.old) }
    ensures { (result ≤ 7) × ((s : State) → Begins s state.old pins (length image.old) →
        Taken Execute s image.old list.old result state.new image.new list.new) }
{
    let count = processor::instruction(pins, state, image, list);
    if count == 0 {
        return 0;
    }
    add_cycles(state, count);
    count
}

// What a step takes. Answers the accesses made, or 0 where it is an instruction whose opcode is undefined.
fn take(event: Event, pins: u8, state: &mut [u8; 16], image: &mut [u8], list: &mut [u8]) -> usize
    requires { Sized (length image.old) (length list.old) }
    ensures { (result ≤ 7) × ((s : State) → Begins s state.old pins (length image.old) →
        Taken event s image.old list.old result state.new image.new list.new) }
{
    match event {
        Event::Res => {
            reset(pins, state, image, list);
            7
        }
        Event::Nmi => {
            interrupt(0xFFFA, pins, state, image, list);
            7
        }
        Event::Irq => {
            interrupt(0xFFFE, pins, state, image, list);
            7
        }
        Event::Execute => execute(pins, state, image, list),
    }
}

// "6 adds PC and opcode"
fn undefined(pins: u8, state: &[u8; 16], image: &[u8]) -> u64
    requires { Sized (length image.now) 56 }
    ensures { (s : State) → Begins s state.now pins (length image.now) →
        result ≡ refusal_word (Undefined s.cpu.pc (opcode_of images s image.now)) }
{
    let w = wiring::wire(state, pins, image.len());
    let pc = state::pc_of(state);
    let opcode = reads::look(state, w, image, pc);
    words::refusal_word(Refusal::Undefined { pc, opcode })
}

// The word of a step that took what it takes. "Every step stores the NMI level".
fn answer(lines: u8, pins: u8, count: usize, state: &mut [u8; 16], image: &[u8]) -> u64
    requires { (count ≤ 7) × Sized (length image.now) 56 }
    ensures { (e : Event) (s : State) (i l l' : List ℕ) → Begins s (record_of s) pins (length i) → 56 ≤ length l →
        Taken e s i l count state.old image.now l' →
        left result state.new image.now l' ≡ worded step_word (advanced e lines s (record_of s) i l) }
{
    if count == 0 {
        return undefined(pins, state, image);
    }
    state[10] = lines / 2 % 2;
    words::packed(Numbers {
        number: 0,
        small: count as u8,
        large: 0,
    })
}

// The word of a step with no line asserted and no pin high, of a record and an image that fit: nothing else is asked. Who calls it asks for
// these two first, so that `step` is not compiled into the way that most steps go.
pub fn quiet(state: &mut [u8; 16], image: &mut [u8], list: &mut [u8]) -> u64
    requires { Fits state.old image.old }
    ensures { left result state.new image.new list.new
        ≡ worded step_word (step images state.old image.old 0 0 list.old) }
{
    if list.len() < 56 {
        return words::refusal_word(Refusal::Room);
    }
    let count = execute(0, state, image, list);
    answer(0, 0, count, state, image)
}

// The word of any step of a record and an image that fit: 4 to 6 in order; "no byte moves".
pub fn step(state: &mut [u8; 16], image: &mut [u8], lines: u8, pins: u8, list: &mut [u8]) -> u64
    requires { Fits state.old image.old }
    ensures { left result state.new image.new list.new
        ≡ worded step_word (step images state.old image.old lines pins list.old) }
{
    if !checks::lines_fit(state[0], lines, pins) {
        return words::refusal_word(Refusal::Lines);
    }
    if list.len() < 56 {
        return words::refusal_word(Refusal::Room);
    }
    let event = event_in(lines, state);
    let count = take(event, pins, state, image, list);
    answer(lines, pins, count, state, image)
}
