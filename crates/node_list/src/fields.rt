//! The fields of a line, before its path. They are written from last to first, as the digits of a
//! number are computed from its end, and form one run of bytes.

ghost use Rattle.std.specs.Prelude.{◌≡◌, ◌<◌, ◌≤◌, ◌+◌, ◌++◌, ◌∷◌, length, drop};
ghost use Rattle.std.specs.Fmt.{decimal};
ghost use Rattle.node_list.specs.Lines.{octal_digit, mode_text, spaced, fields_text};

use itoa::write_digits;
use stack_model::Attr;

/// The most bytes that the fields take, each followed by a space: four numbers of 20 digits, and a
/// mode.
pub(crate) const FIELDS_SIZE: usize = 4 * 21 + 7;

/// Writes the fields of a node in a layer to the end of some bytes, and returns their start.
pub(crate) fn write_fields(attr: &Attr, layer: u16, bytes: &mut [u8]) -> usize
    requires { length bytes.old ≡ FIELDS_SIZE }
    ensures start { result ≤ FIELDS_SIZE }
    ensures written { drop result bytes.new
        ≡ fields_text attr.now.ino attr.now.mode attr.now.nlink attr.now.size layer }
{
    let at = write_number(u64::from(layer), bytes, FIELDS_SIZE);
    let at = write_number(attr.size, bytes, at);
    let at = write_number(u64::from(attr.nlink), bytes, at);
    let at = write_mode(attr.mode, bytes, at);
    write_number(attr.ino, bytes, at)
}

// Writes a byte that ends at `end`, and returns its start.
fn write_byte(byte: u8, bytes: &mut [u8], end: usize) -> usize
    requires some { 0 < end }
    requires within { end ≤ length bytes.old }
    ensures start { result + 1 ≡ end }
    ensures written { drop result bytes.new ≡ byte ∷ drop end bytes.old }
{
    let at = end - 1;
    bytes[at] = byte;
    at
}

// The same for a number, followed by a space.
fn write_number(number: u64, bytes: &mut [u8], end: usize) -> usize
    requires some { 21 ≤ end }
    requires within { end ≤ length bytes.old }
    ensures start { end ≤ result + 21 }
    ensures within { result ≤ end }
    ensures written { drop result bytes.new ≡ spaced (decimal number) ++ drop end bytes.old }
{
    let space = write_byte(b' ', bytes, end);
    write_digits(number, bytes, space)
}

fn octal_digit(n: u32) -> u8
    ensures { result ≡ octal_digit n }
{
    48 + (n % 8) as u8
}

// The same for a mode in six octal digits, followed by a space.
fn write_mode(mode: u32, bytes: &mut [u8], end: usize) -> usize
    requires some { 7 ≤ end }
    requires within { end ≤ length bytes.old }
    ensures start { result + 7 ≡ end }
    ensures written { drop result bytes.new ≡ spaced (mode_text mode) ++ drop end bytes.old }
{
    let at = write_byte(b' ', bytes, end);
    let at = write_byte(octal_digit(mode), bytes, at);
    let at = write_byte(octal_digit(mode / 8), bytes, at);
    let at = write_byte(octal_digit(mode / 64), bytes, at);
    let at = write_byte(octal_digit(mode / 512), bytes, at);
    let at = write_byte(octal_digit(mode / 4_096), bytes, at);
    write_byte(octal_digit(mode / 32_768), bytes, at)
}
