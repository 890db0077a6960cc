// One field of a line, byte by byte: the letter or the number that it can still be.
ghost use Rattle.std.specs.Prelude.{◌≡◌};
ghost use Rattle.line.specs.LineState.{field_more, digits_more, digits_field, kept, number_of};

#[derive(Clone, Copy, PartialEq, Eq)]
pub enum Field {
    Empty,
    // one byte that is no digit
    Letter(u8),
    Digits(Digits),
    // neither a letter nor a number, whatever follows
    Other,
}

// 1 to 10 digits, and what they say.
#[derive(Clone, Copy, PartialEq, Eq)]
pub struct Digits {
    pub count: u32,
    pub value: u32,
}

impl Field {
    // The field with one byte more.
    #[tactic(auto, unfolding(crate::specs::Grammar::digit, conditions::specs::Conditions::within, conditions::specs::Conditions::both, crate::specs::LineState::field_more, crate::specs::LineState::first_byte))]
    pub(crate) fn more(self, byte: u8) -> Field
        ensures { result ≡ field_more self byte }
    {
        match self {
            Field::Empty if byte.is_ascii_digit() => Digits { count: 0, value: 0 }.more(byte),
            Field::Empty => Field::Letter(byte),
            Field::Digits(digits) => digits.more(byte),
            Field::Letter(_) | Field::Other => Field::Other,
        }
    }

    // An empty field with so many digits more, which say this.
    #[tactic(auto, unfolding(crate::specs::LineState::digits_field))]
    pub(crate) fn of_digits(count: u32, value: u64) -> Field
        ensures { result ≡ digits_field count value }
    {
        if count == 0 {
            return Field::Empty;
        }
        Field::kept(count, value)
    }

    // Digits stay a number as long as they fit 32 bits: more of them never say less.
    #[tactic(auto, unfolding(crate::specs::LineState::kept))]
    fn kept(count: u32, value: u64) -> Field
        ensures { result ≡ kept count value }
    {
        match u32::try_from(value) {
            Ok(value) => Field::Digits(Digits { count, value }),
            Err(_) => Field::Other,
        }
    }

    // The number that the whole field is.
    #[tactic(auto, unfolding(crate::specs::LineState::number_of))]
    pub(crate) fn number(self) -> Option<u32>
        ensures { result ≡ number_of self }
    {
        match self {
            Field::Digits(digits) => Some(digits.value),
            Field::Empty | Field::Letter(_) | Field::Other => None,
        }
    }
}

impl Digits {
    // The digits with one byte more.
    #[tactic(auto, unfolding(crate::specs::Grammar::digit, conditions::specs::Conditions::within, conditions::specs::Conditions::both, crate::specs::LineState::digits_more))]
    fn more(self, byte: u8) -> Field
        ensures { result ≡ digits_more self.count self.value byte }
    {
        if byte.is_ascii_digit() && self.count < 10 {
            Field::kept(
                self.count + 1,
                u64::from(self.value) * 10 + u64::from(byte - b'0'),
            )
        } else {
            Field::Other
        }
    }
}
