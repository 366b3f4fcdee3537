// A sheet as hexadecimal text: two digits for a byte, spaces and line ends between bytes, and comments from # to the line's
// end.
ghost use Rattle.std.specs.Prelude.{◌≡◌, ◌^◌, ◌<◌, IfSome};
ghost use Rattle.label_text.specs.Hexes.{digit_of, turn, behind};
ghost use Rattle.label_text.specs.Parsed.{Low, LeadsLow, Parsed, Spelled};
ghost use Rattle.label_text.specs.declared.hexes.HexFault.TheVariants.{Text, Memory};

use std::alloc::{AllocFailed, Global};

// Where a character stands: lines and columns count from 1, and a column is a byte.
#[derive(Clone, Copy, Debug, PartialEq, Eq)]
pub struct Spot {
    pub line: usize,
    pub column: usize,
}

// What is wrong with a character: it is neither a digit nor a space, a line end or a comment; or the second digit of a byte
// should stand in its place.
#[derive(Clone, Copy, Debug, PartialEq, Eq)]
pub enum Slip {
    NotHexadecimal,
    HalfByte,
}

#[derive(Clone, Copy, Debug, PartialEq, Eq)]
pub struct TextFault {
    pub slip: Slip,
    pub spot: Spot,
}

// Why no bytes come of a text. The conversions are written by hand, since the contract of the reading names the variant that
// a ? makes, and a derived From promises none.
#[derive(Clone, Copy, Debug, PartialEq, Eq)]
pub enum HexFault {
    Text(TextFault),
    Memory,
}

// Where the reading stands: between bytes, behind the first digit of one, or in a comment.
#[derive(Clone, Copy)]
enum Mode {
    Between,
    Half(u8),
    Comment,
}

// What a character does to the reading.
#[derive(Clone, Copy)]
enum Turn {
    Goes(Mode),
    Gives(u8),
}

impl From<TextFault> for HexFault {
    ghost from_gives = { λ f r. r ≡ Text f };

    fn from(fault: TextFault) -> HexFault {
        HexFault::Text(fault)
    }
}

impl<T: Drop> From<AllocFailed<T>> for HexFault {
    ghost from_gives = { λ _ r. r ≡ Memory };

    fn from(_refused: AllocFailed<T>) -> HexFault {
        HexFault::Memory
    }
}

impl Spot {
    // The place behind the character `c`.
    fn pass(&mut self, c: u8)
        requires { (self.old.line < 2 ^ 63) × (self.old.column < 2 ^ 63) }
        ensures { self.new ≡ behind self.old c }
    {
        if c == b'\n' {
            self.line += 1;
            self.column = 1;
        } else {
            self.column += 1;
        }
    }
}

fn digit(c: u8) -> Option<u8>
    ensures value { result ≡ digit_of c }
    ensures small { IfSome result (λ d. d < 16) }
{
    let value = char::from(c).to_digit(16)?;
    Some(value as u8)
}

impl Mode {
    fn turn(self, c: u8) -> Result<Turn, Slip>
        requires { Low self }
        ensures value { result ≡ turn self c }
        ensures low { LeadsLow result }
    {
        match self {
            Mode::Between => match c {
                b'#' => Ok(Turn::Goes(Mode::Comment)),
                b' ' | b'\t' | b'\n' | b'\r' => Ok(Turn::Goes(Mode::Between)),
                _ => {
                    let high = digit(c).ok_or(Slip::NotHexadecimal)?;
                    Ok(Turn::Goes(Mode::Half(high)))
                }
            },
            Mode::Half(high) => {
                let low = digit(c).ok_or(Slip::HalfByte)?;
                Ok(Turn::Gives(high * 16 + low))
            }
            Mode::Comment => match c {
                b'\n' => Ok(Turn::Goes(Mode::Between)),
                _ => Ok(Turn::Goes(Mode::Comment)),
            },
        }
    }
}

// The bytes that the text spells, or the place of its first fault.
pub fn parse_hex(heap: Global, text: &[u8]) -> Result<Vec<u8>, HexFault>
    ensures parsed { Parsed text.now result }
    ensures spelled { Spelled text.now result }
{
    read_text(heap, text)
}

// The reading alone; `parse_hex` adds what its answer means for the bytes, once for all its exits.
fn read_text(heap: Global, text: &[u8]) -> Result<Vec<u8>, HexFault>
    ensures { Parsed text.now result }
{
    let mut bytes = Vec::new(heap);
    let mut mode = Mode::Between;
    let mut spot = Spot { line: 1, column: 1 };
    for c in text {
        // a match, since a closure in map_err makes a character up to a third dearer
        let turn = match mode.turn(*c) {
            Ok(turn) => turn,
            Err(slip) => return Err(HexFault::Text(TextFault { slip, spot })),
        };
        mode = match turn {
            Turn::Goes(next) => next,
            Turn::Gives(byte) => {
                bytes.push(byte)?;
                Mode::Between
            }
        };
        spot.pass(*c);
    }
    match mode {
        Mode::Half(_) => Err(HexFault::Text(TextFault {
            slip: Slip::HalfByte,
            spot,
        })),
        Mode::Between | Mode::Comment => Ok(bytes),
    }
}
