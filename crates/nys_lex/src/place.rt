ghost use Rattle.std.specs.Prelude.{◌≡◌, ◌+◌, ◌≤◌, ◌<◌, ◌^◌, length};
ghost use Rattle.nys_lex.specs.Place.{past_byte, past};

/// A place in a text: its line and its column, both from 1, columns counting bytes.
#[derive(Clone, Copy, Debug, PartialEq, Eq)]
pub struct Place {
    pub line: u32,
    pub col: u32,
}

/// Where a text begins.
pub const START: Place = Place { line: 1, col: 1 };

impl Place {
    /// The place after this byte, which stands at this place.
    fn past_byte(self, byte: u8) -> Place
        requires line { self.line + 1 < 2 ^ 32 }
        requires col { self.col + 1 < 2 ^ 32 }
        ensures { result ≡ past_byte self byte }
    {
        if byte == b'\n' {
            Place {
                line: self.line + 1,
                col: 1,
            }
        } else {
            Place {
                line: self.line,
                col: self.col + 1,
            }
        }
    }

    /// The place after these bytes, the first of which stands at this place.
    pub fn past(self, bytes: &[u8]) -> Place
        requires line { self.line + length bytes.now < 2 ^ 32 }
        requires col { self.col + length bytes.now < 2 ^ 32 }
        ensures value { result ≡ past self bytes.now }
        ensures line { result.line ≤ self.line + length bytes.now }
        ensures col { result.col ≤ self.col + length bytes.now }
    {
        let mut place = self;
        for byte in bytes {
            place = place.past_byte(*byte);
        }
        place
    }
}
