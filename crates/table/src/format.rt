// The format of a loop's data words, by its full scale (M3): that of the input, and that of the output.
ghost use Rattle.std.specs.Prelude.{◌≡◌};
ghost use Rattle.table.specs.Words.{format_by, input_format, output_format};

use crate::words::bit;

// No enum: all that is asked of a format is its full scale, a number to compute with.
#[derive(Clone, Copy)]
pub struct Format {
    pub scale: u16,
}

impl Format {
    pub const TWELVE: Format = Format { scale: 4095 };

    pub const FIFTEEN: Format = Format { scale: 32767 };

    pub const SIXTEEN: Format = Format { scale: 65535 };

    // By two bits of mode 2: 16 bits with the first on; without it 15 with the second on; else 12.
    fn by(sixteen: bool, fifteen: bool) -> Format
        ensures { result ≡ format_by sixteen fifteen }
    {
        if sixteen {
            Format::SIXTEEN
        } else if fifteen {
            Format::FIFTEEN
        } else {
            Format::TWELVE
        }
    }

    // Of the input, from mode 2: by bits 9 and 1.
    pub fn new(word: u16) -> Format
        ensures { result ≡ input_format word }
    {
        Format::by(bit(word, 9), bit(word, 1))
    }

    // Of the output, from mode 2: with bit 10 on by bits 13 and 12, else the input's.
    pub fn of_output(word: u16, input: Format) -> Format
        ensures { result ≡ output_format word input }
    {
        if bit(word, 10) {
            Format::by(bit(word, 13), bit(word, 12))
        } else {
            input
        }
    }
}
