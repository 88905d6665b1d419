// All that a sample reads of the lent words.
ghost use Rattle.std.specs.Prelude.{◌≡◌, ◌+◌, ◌≤◌, length};
ghost use Rattle.table.specs.Words.{base_of};
ghost use Rattle.reading.specs.Transfers.{transfers};
ghost use Rattle.reading.specs.Reading.{mode_after, remote_of, reading_of};

use crate::program::{Program, part, read_program};
use crate::settings::{Mode1, Settings, read_settings};
use crate::transfer::{Major, read_major};
use table::{Mode, PROFILE_TABLE, base_of, word_at};

// What is read of the loop's past: its mode so far (A2, A13), and the carried segment (G1).
#[derive(Clone, Copy)]
pub struct Former {
    pub mode: Mode,
    pub segment: u8,
}

// The loop's number and settings, the mode after the requests (A2), in Cascade the word that the setpoint
// pointer names (A3; else 0), whether it is a transfer (A13) and its major loop, and the ramp/soak program (G1).
#[derive(Clone, Copy)]
pub struct Reading {
    pub number: u8,
    pub settings: Settings,
    pub mode: Mode,
    pub remote: u16,
    pub transfer: bool,
    pub major: Major,
    pub program: Program,
}

// A2: the lowest request bit that is on names the mode; with all three off the former one goes on.
#[tactic(auto, unfolding(crate::specs::Reading::mode_after))]
fn mode_after(bits: Mode1, former: Mode) -> Mode
    ensures { result ≡ mode_after bits former }
{
    if bits.manual {
        Mode::Manual
    } else if bits.automatic {
        Mode::Automatic
    } else if bits.cascade {
        Mode::Cascade
    } else {
        former
    }
}

// A13: from Automatic to Cascade, by request, with bit 3 off.
#[tactic(auto, unfolding(crate::specs::Reading::mode_after, crate::specs::Transfers::transfers))]
fn is_transfer(bits: Mode1, former: Mode) -> bool
    ensures { result ≡ transfers former (mode_after bits former) bits.bumpless }
{
    bits.cascade & former.is_automatic() & !bits.manual & !bits.automatic & !bits.bumpless
}

// A3: the word that the setpoint pointer names, in Cascade; else 0, as the definitions have it that read it beside the mode.
#[tactic(auto, unfolding(crate::specs::Reading::remote_of))]
fn read_remote(words: &[u16], mode: Mode, pointer: u16) -> u16
    ensures { result ≡ remote_of words.now mode pointer }
{
    if mode.is_cascade() {
        word_at(words, usize::from(pointer))
    } else {
        0
    }
}

// What a sample of loop `number` reads.
#[tactic(auto, unfolding(crate::specs::Reading::reading_of))]
pub fn read_loop(words: &[u16], number: u8, former: Former) -> Reading
    requires { (base_of number + 32 ≤ length words.now) × (1024 ≤ length words.now) × (former.segment ≤ 16) }
    ensures { result ≡ reading_of words.now number former }
{
    let base = base_of(number);
    let settings = read_settings(part(words, base));
    let bits = settings.mode1;
    let mode = mode_after(bits, former.mode);
    let transfer = is_transfer(bits, former.mode);
    Reading {
        number,
        settings,
        mode,
        remote: read_remote(words, mode, settings.pointer),
        transfer,
        major: read_major(words, transfer, number, settings.pointer),
        program: read_program(
            words,
            bits.profile,
            words[base + PROFILE_TABLE],
            settings.mode2.input.scale,
            former.segment,
        ),
    }
}
