// Bytes and numbers, put into a lent text. Each `put_x` that is given a place to begin at gives the place behind what
// it put.
ghost use Rattle.std.specs.Prelude.{◌≡◌, [], ◌∷◌, ◌+◌, ◌-◌, ◌≤◌, ◌<◌, length};
ghost use Rattle.text.specs.Lines.{digits};
ghost use Rattle.words.specs.Putting.{Puts};

// "Numbers have 1 to 5 digits".
pub fn number_size(n: u16) -> usize
    ensures { result ≡ length (digits n) }
{
    match n {
        0..=9 => 1,
        10..=99 => 2,
        100..=999 => 3,
        1000..=9999 => 4,
        _ => 5,
    }
}

// The byte of a digit.
pub fn digit(n: u16) -> u8
    requires { n < 10 }
    ensures { result ≡ 48 + n }
{
    (48 + n) as u8
}

// "Numbers are in base ten": digits are found from the last to the first, so a number is put where it ends.
pub fn put_digits(text: &mut [u8], end: usize, n: u16)
    requires { (length (digits n) ≤ end) × (end ≤ length text.old) }
    ensures { Puts text.old (end - length (digits n)) (digits n) text.new end }
{
    let mut rest = n;
    for place in (0..end).rev() {
        if rest < 10 {
            text[place] = digit(rest);
            return;
        }
        text[place] = digit(rest % 10);
        rest /= 10;
    }
}

pub fn put_number(text: &mut [u8], at: usize, n: u16) -> usize
    requires { at + length (digits n) ≤ length text.old }
    ensures { Puts text.old at (digits n) text.new result }
{
    let end = at + number_size(n);
    put_digits(text, end, n);
    end
}

pub fn put_byte(text: &mut [u8], at: usize, byte: u8) -> usize
    requires { at < length text.old }
    ensures { Puts text.old at (byte ∷ []) text.new result }
{
    text[at] = byte;
    at + 1
}

// A key and its =, or a whole line that never changes.
pub fn put_bytes(text: &mut [u8], at: usize, bytes: &[u8]) -> usize
    requires { at + length bytes.now ≤ length text.old }
    ensures { Puts text.old at bytes.now text.new result }
{
    for k in 0..bytes.len() {
        text[at + k] = bytes[k];
    }
    at + bytes.len()
}
