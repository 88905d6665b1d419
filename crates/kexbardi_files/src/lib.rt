// The C interface on whole drill files (Q5, Q6, Q12): one carried out on a desk, printed from reset, or written of a
// desk's words.
// include/kexbardi.h declares it. It is an object of its own in the archive, so that a program that only
// samples links none of it.
#![tactic(auto)]

ghost use Rattle.std.specs.Prelude.{◌≡◌, ◌≤◌, length};
ghost use Rattle.desk.specs.Desk.{lent};
ghost use Rattle.session.specs.Session.{ended_of, left_of};
ghost use Rattle.kexbardi_files.specs.Files.{ended, ended_by, answers_left, filled, print_left, setup_filled};

use refusals::{ACCEPTED, MEMORY, number_of};

// Q5: a file of any length carried out. 5. Else the answer to each record goes into `answers` in order, as
// far as there is room, and the counts of records and of refused ones into `count` and `refused`.
#[unsafe(no_mangle)]
pub extern "C" fn kexbardi_run(
    file: &[u8],
    words: &mut [u16],
    records: &mut [i64],
    answers: &mut [u8],
    count: &mut usize,
    refused: &mut usize,
) -> u8
    ensures number { ended result count.new refused.new ≡ ended_by (ended_of file.now (lent words.old records.old)) count.old refused.old }
    ensures left { lent words.new records.new ≡ left_of file.now (lent words.old records.old) }
    ensures answers { answers.new ≡ answers_left file.now (lent words.old records.old) answers.old }
{
    match session::run(file, words, records, answers) {
        Err(why) => number_of(Err(why)),
        Ok(all) => {
            *count = all.count;
            *refused = all.refused;
            ACCEPTED
        }
    }
}

// Q6: what the program `drill` prints of a file, from the start of `out`. 5 where `out` has less room than
// ten bytes for each byte of the file, and 100 (nine bytes for a file that is too long).
#[unsafe(no_mangle)]
pub extern "C" fn kexbardi_print(file: &[u8], out: &mut [u8], size: &mut usize) -> u8
    ensures text { filled result out.new size.new ≡ print_left file.now out.old size.old }
    ensures within { result ≡ 0 → size.new ≤ length out.new }
{
    let n = session::drill(file, out);
    if n == 0 {
        return MEMORY;
    }
    *size = n;
    0
}

// Q12: the setup file of the words, from the start of `out`. 5, 10, and then nothing is written.
#[unsafe(no_mangle)]
pub extern "C" fn kexbardi_setup(words: &[u16], out: &mut [u8], size: &mut usize) -> u8
    ensures { filled result out.new size.new ≡ setup_filled words.now out.old size.old }
{
    match setups::write_setup(words, out) {
        Ok(n) => {
            *size = n;
            ACCEPTED
        }
        Err(why) => number_of(Err(why)),
    }
}
