// A file's name as it is told.
ghost use Rattle.std.specs.Prelude.{◌≡◌, map};
ghost use Rattle.programs.specs.Names.{shown_byte};

const DELETE: u8 = 127; // the control byte that is not below a space

// A name may hold any byte but 0, and what is told is one line all the same.
pub(crate) fn hide_controls(text: &mut [u8])
    ensures { text.new ≡ map shown_byte text.old }
{
    for b in text.iter_mut() {
        *b = shown(*b);
    }
}

fn shown(b: u8) -> u8
    ensures { result ≡ shown_byte b }
{
    if b < b' ' || b == DELETE { b'?' } else { b }
}
