// The lines that the program `drill` prints (L9, L10), written into a lent buffer.
#![tactic(auto)]

ghost use Rattle.std.specs.Prelude.{◌++◌, ◌+◌, ◌≤◌, ◌<◌, length};
ghost use Rattle.text.specs.Text.{hex_of};
ghost use Rattle.text.specs.Writing.{HasRoom, Writes};
ghost use Rattle.lines.specs.Lines.{field_text, set_text, loop_text, accepted_text, said_text, line_text, last_text};
ghost use Rattle.lines.specs.Widths.{width_of};

use reader::Record;
use refusals::Refusal;
use text::Writer;

// A word and a number of at most five digits.
fn put_field(line: &mut Writer, word: &[u8], n: u16)
    requires { HasRoom line.old (length word.now + 5) }
    ensures written { Writes line.old (field_text word.now n) line.new }
    ensures upper_bound { line.new.at ≤ line.old.at + length word.now + 5 }
{
    line.text(word);
    line.decimal(n as u64);
}

// A word and the four hexadecimal digits of a number.
fn put_status(line: &mut Writer, word: &[u8], n: u16)
    requires { HasRoom line.old (length word.now + 4) }
    ensures { Writes line.old (word.now ++ hex_of n) line.new }
{
    line.text(word);
    line.hex(n);
}

fn put_set(line: &mut Writer, address: u16, value: u16)
    requires { HasRoom line.old 16 }
    ensures written { Writes line.old (set_text address value) line.new }
    ensures upper_bound { line.new.at ≤ line.old.at + 16 }
{
    put_field(line, b" set ", address);
    put_field(line, b" ", value);
}

// `shown` is the loop's setpoint, PV, output and status.
fn put_loop(line: &mut Writer, k: u8, shown: [u16; 4])
    requires { HasRoom line.old 49 }
    ensures written { Writes line.old (loop_text k shown) line.new }
    ensures upper_bound { line.new.at ≤ line.old.at + 49 }
{
    put_field(line, b" loop ", k as u16);
    put_field(line, b" sp ", shown[0]);
    put_field(line, b" pv ", shown[1]);
    put_field(line, b" out ", shown[2]);
    put_status(line, b" word ", shown[3]);
}

// What a line says of a record that was carried out.
fn put_accepted(line: &mut Writer, item: Result<Record, Refusal>, shown: [u16; 4])
    requires { HasRoom line.old 49 }
    ensures written { Writes line.old (accepted_text item shown) line.new }
    ensures upper_bound { line.new.at ≤ line.old.at + width_of item }
{
    match item {
        Ok(Record::Store(address, value)) => put_set(line, address, value),
        Ok(Record::Sample(k, _)) => put_loop(line, k, shown),
        Err(_) => {}
    }
}

// What a line says of a record with its number of refusal.
fn put_said(line: &mut Writer, item: Result<Record, Refusal>, number: u8, shown: [u16; 4])
    requires { HasRoom line.old 49 }
    ensures written { Writes line.old (said_text item number shown) line.new }
    ensures upper_bound { line.new.at ≤ line.old.at + width_of item }
{
    if number == 0 {
        put_accepted(line, item, shown);
    } else {
        put_field(line, b" refused ", number as u16);
    }
}

// The line of the nth record, n having at most five digits. The number stays one: `line_text` has a line for any, and a `Refusal` in
// its place would ask more of a caller.
pub fn put_line(
    line: &mut Writer,
    n: usize,
    item: Result<Record, Refusal>,
    number: u8,
    shown: [u16; 4],
)
    requires room { HasRoom line.old 55 }
    requires short { n < 100000 }
    ensures written { Writes line.old (line_text n item number shown) line.new }
    ensures upper_bound { line.new.at ≤ line.old.at + (6 + width_of item) }
{
    line.decimal(n as u64);
    put_said(line, item, number, shown);
    line.byte(b'\n');
}

// The last line.
pub fn put_last(line: &mut Writer, count: usize, refused: usize)
    requires { HasRoom line.old 60 }
    ensures written { Writes line.old (last_text count refused) line.new }
    ensures upper_bound { line.new.at ≤ line.old.at + 60 }
{
    line.decimal(count as u64);
    line.text(b" records, ");
    line.decimal(refused as u64);
    line.text(b" refused\n");
}
