// A slot's word and its two halves.
ghost use Rattle.std.specs.Prelude.{◌≡◌};
ghost use Rattle.slot_words.specs.Word.{point_of, value_of, word_of};

pub fn point_of(word: u64) -> u32
    ensures { result ≡ point_of word }
{
    (word / 4294967296) as u32
}

pub fn value_of(word: u64) -> u32
    ensures { result ≡ value_of word }
{
    (word % 4294967296) as u32
}

pub fn word_of(point: u32, value: u32) -> u64
    ensures { result ≡ word_of point value }
{
    u64::from(point) * 4294967296 + u64::from(value)
}
