// "The reader moves through the file by a cursor of byte offset and line": the next digit, a number, bytes that must
// stand there, and a line's end. Each hands back the cursor behind what it read, or nothing where it does not stand.
ghost use Rattle.text.specs.ReadCode.{Placed, start_cursor, DigitAt, NumberAt, WordAt, EndAt};
ghost use Rattle.std.specs.Prelude.{◌≡◌};

#[derive(Clone, Copy, Debug, PartialEq, Eq)]
pub struct Cursor {
    pub at: usize,
    pub line: u64,
}

// "Numbers have 1 to 5 digits"
const MOST_DIGITS: u32 = 5;

impl Cursor {
    // "Lines count from 1".
    pub fn start() -> Cursor
        ensures { result ≡ start_cursor }
    {
        Cursor { at: 0, line: 1 }
    }

    // The digit here, and the cursor behind it.
    pub fn digit(self, text: &[u8]) -> Option<(u32, Cursor)>
        ensures { DigitAt text.now self result }
    {
        let byte = *text.get(self.at)?;
        if !byte.is_ascii_digit() {
            return None;
        }
        let behind = Cursor {
            at: self.at + 1,
            line: self.line,
        };
        Some((u32::from(byte - b'0'), behind))
    }

    // "Numbers have 1 to 5 digits, no leading 0": the number here, and the cursor behind it.
    pub fn number(self, text: &[u8]) -> Option<(u32, Cursor)>
        ensures { NumberAt text.now self result }
    {
        let mut behind = self;
        let mut value = 0;
        let mut digits = 0;
        while let Some((digit, next)) = behind.digit(text) {
            if digits == MOST_DIGITS {
                return None;
            }
            if digits == 1 && value == 0 {
                return None;
            }
            value = 10 * value + digit;
            digits += 1;
            behind = next;
        }
        if digits == 0 {
            return None;
        }
        Some((value, behind))
    }

    // The cursor behind bytes that must stand here.
    pub fn word(self, text: &[u8], word: &[u8]) -> Option<Cursor>
        requires { Placed text.now self }
        ensures { WordAt text.now self word.now result }
    {
        if text.len() - self.at < word.len() {
            return None;
        }
        if !(0..word.len()).all(|k| text[self.at + k] == word[k]) {
            return None;
        }
        Some(Cursor {
            at: self.at + word.len(),
            line: self.line,
        })
    }

    // A line's end, "byte 10": the cursor goes on to the next line.
    pub fn line_end(self, text: &[u8]) -> Option<Cursor>
        requires { Placed text.now self }
        ensures { EndAt text.now self result }
    {
        let next = self.word(text, b"\n")?;
        Some(Cursor {
            at: next.at,
            line: next.line + 1,
        })
    }
}
