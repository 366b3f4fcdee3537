// A row of 1,024 flags, packed 32 to a word.
#![tactic(auto)]

ghost use Rattle.std.specs.Prelude.{◌≡◌, false, length, replicate, position};
ghost use Rattle.bits.specs.Flags.{flags, flag, is_not_full, turned, Sought};

/// How many bits a word has.
const WORD_BITS: usize = u32::BITS as usize;

/// How many words a row has.
const ROW_WORDS: usize = 32;

#[derive(Debug, PartialEq, Eq, Drop)]
pub struct Flags {
    words: [u32; ROW_WORDS],
    ghost long: { length words ≡ 32 },
}

impl Flags {
    /// A row with no flag set.
    pub fn none() -> Flags
        ensures { flags result.words ≡ replicate 1024 false }
    {
        Flags {
            words: [0; ROW_WORDS],
        }
    }

    /// The flag at a place; past the end none is set.
    pub fn is_set(&self, place: usize) -> bool
        ensures { result ≡ flag (flags self.now.words) place }
    {
        let Some(&word) = self.words.get(place / WORD_BITS) else {
            return false;
        };
        (word >> (place % WORD_BITS)) & 1 == 1
    }

    /// Turns the flag at a place; past the end there is none to turn.
    pub fn turn(&mut self, place: usize)
        ensures { flags self.new.words ≡ turned (flags self.old.words) place }
    {
        let at = place / WORD_BITS;

        // By index, and not by `get_mut`: a proof knows no element of a slice after a write through that.
        if at < ROW_WORDS {
            self.words[at] ^= 1 << (place % WORD_BITS);
        }
    }

    /// The lowest place whose flag is not set. Looks at whole words: a word's own first clear bit is its number of
    /// trailing ones.
    pub fn first_clear(&self) -> Option<usize>
        ensures { Sought (flags self.now.words) result }
    {
        let at = first_with_a_clear_bit(&self.words)?;
        Some(at * WORD_BITS + self.words[at].trailing_ones() as usize)
    }

    /// Clears every flag.
    pub fn clear(&mut self)
        ensures { flags self.new.words ≡ replicate 1024 false }
    {
        *self = Flags::none();
    }
}

// The number of the first word that has a clear bit.
fn first_with_a_clear_bit(words: &[u32]) -> Option<usize>
    ensures { result ≡ position is_not_full words.now }
{
    words.iter().position(|word| *word != u32::MAX)
}
