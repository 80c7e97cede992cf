// The marks of the units, one bit for each: the mark of the unit u is bit u % 64 of the word u / 64. A mark is set
// while the block starting there is in a user's hands.
ghost use Rattle.std.specs.Prelude.{◌≡◌, ◌<◌};
ghost use Rattle.limits.specs.Limits.{WORD_MARKS};
ghost use Rattle.words.specs.Mark.{is_set, with_set, with_clear, BitWritten};

// Whether the mark at `bit` is set. The test that begins a free passes its unit's remainder by 64.
pub fn test(word: u64, bit: u32) -> bool
    requires { bit < WORD_MARKS }
    ensures { result ≡ is_set word bit }
{
    (word >> bit) & 1 == 1
}

// The word with the mark at `bit` set. The step that finishes an allocation passes its unit's remainder by 64.
pub fn set(word: u64, bit: u32) -> u64
    requires { bit < WORD_MARKS }
    ensures { BitWritten word bit 1 (with_set word bit) result }
{
    word | (1u64 << bit)
}

// The word with the mark at `bit` clear. The beginning of a free passes its unit's remainder by 64.
pub fn clear(word: u64, bit: u32) -> u64
    requires { bit < WORD_MARKS }
    ensures { BitWritten word bit 0 (with_clear word bit) result }
{
    word & !(1u64 << bit)
}
