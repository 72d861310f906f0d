// A text, put down byte by byte and number by number. A byte past the end of the output is counted and not stored, so that the same
// functions measure a text and write it. A text is below 400,000 bytes; each function asks for a position that leaves those that it
// calls enough below their own limit.
#![tactic(auto)]

ghost use Rattle.std.specs.Prelude.{◌≡◌, [], ◌∷◌, ◌+◌, ◌≤◌, ◌<◌, length};
ghost use Rattle.text.specs.Numbers.{digits, spaced, hex_digit, hex_digits};
ghost use Rattle.text.specs.Puts.{Put};

pub fn put_byte(out: &mut [u8], at: usize, byte: u8) -> usize
    requires { at ≤ 4000000 }
    ensures { Put (byte ∷ []) at out.old result out.new }
{
    if at < out.len() {
        out[at] = byte;
    }
    at + 1
}

pub fn put_bytes(out: &mut [u8], at: usize, bytes: &[u8]) -> usize
    requires { at + length bytes.now ≤ 3000000 }
    ensures { Put bytes.now at out.old result out.new }
{
    let mut next = at;
    for byte in bytes {
        next = put_byte(out, next, *byte);
    }
    next
}

// The highest digits first. By hand, since `write!` would want a writer of its own that counts past the end of the output.
pub fn put_digits(out: &mut [u8], at: usize, number: u64) -> usize
    requires { at ≤ 3000000 }
    ensures { Put (digits 20 number) at out.old result out.new × (result ≤ at + 20) }
{
    let last = b'0' + (number % 10) as u8;
    if number < 10 {
        return put_byte(out, at, last);
    }
    let next = put_digits(out, at, number / 10);
    put_byte(out, next, last)
}

// A number after a space.
pub fn put_field(out: &mut [u8], at: usize, number: u64) -> usize
    requires { at ≤ 2000000 }
    ensures { Put (spaced (number ∷ [])) at out.old result out.new × (result ≤ at + 21) }
{
    let next = put_byte(out, at, b' ');
    put_digits(out, next, number)
}

// A number below 16 as a digit, in lower case.
fn hex_digit(number: u32) -> u8
    requires { number < 16 }
    ensures { result ≡ hex_digit number }
{
    char::from_digit(number, 16).unwrap() as u8
}

// The lowest digits of a number in hexadecimal, so many of them, the highest first.
pub fn put_hex(out: &mut [u8], at: usize, width: usize, number: u32) -> usize
    requires { at + width ≤ 3000000 }
    ensures { Put (hex_digits width number) at out.old result out.new × (result ≡ at + width) }
{
    if width == 0 {
        return at;
    }
    let next = put_hex(out, at, width - 1, number / 16);
    put_byte(out, next, hex_digit(number % 16))
}
