// What a host tells besides characters and the time: a measured position, a fault code and power-on (01, "Faults"). Each writes what it changes. They are C's entries, and what they share is `sound_plate`.
ghost use Rattle.std.specs.Prelude.{List, ℕ};
ghost use Rattle.meaning.specs.Run as run;
ghost use Rattle.state.specs.Queue.{no_faults};
ghost use Rattle.line.specs.Line.{no_frame};
ghost use Rattle.image.specs.Image.{state_in};
ghost use Rattle.image.specs.Writes.{faults_set, HoldsState, PutsBoard};
ghost use Rattle.quicksetter.specs.Calls.{Called};

use crate::refusals::sound_plate;
use image::{CORE, LENGTH};
use line::OpenFrame;
use state::Faults;

// 01, "Power-on empties the queue, drops an open frame and unlocks; all else stays".
fn power_on(core: &mut [u8])
    requires { HoldsState core.old }
    ensures { PutsBoard (faults_set (state_in core.old) no_faults) no_frame core.old core.new }
{
    image::put_faults(Faults::none(), core);
    image::put_frame(OpenFrame::none(), core);
}

#[unsafe(no_mangle)]
pub extern "C" fn qs_measured(image: &mut [u8], position: u32) -> usize
    ensures { (m w : List ℕ) → Called image.old m w (run.measured position) result image.new m w }
{
    if let Err(refusal) = sound_plate(image) {
        return refusal.number();
    }
    image::put_measured(position, &mut image[CORE..LENGTH]);
    0
}

#[unsafe(no_mangle)]
pub extern "C" fn qs_fault(image: &mut [u8], code: u8) -> usize
    ensures { (m w : List ℕ) → Called image.old m w (run.fault code) result image.new m w }
{
    if let Err(refusal) = sound_plate(image) {
        return refusal.number();
    }
    image::note(code, &mut image[CORE..LENGTH]);
    0
}

#[unsafe(no_mangle)]
pub extern "C" fn qs_power_on(image: &mut [u8]) -> usize
    ensures { (m w : List ℕ) → Called image.old m w run.power_on result image.new m w }
{
    if let Err(refusal) = sound_plate(image) {
        return refusal.number();
    }
    power_on(&mut image[CORE..LENGTH]);
    0
}
