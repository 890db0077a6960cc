// A digest of numbers: two checksums by two prime numbers, so that no two numbers of 32 bits count the
// same in both.
use slot_words::word::{point_of, value_of};
use std::fmt;

#[derive(Clone, Copy)]
pub(crate) struct Digest {
    first: u32,
    second: u32,
}

impl Digest {
    // It begins with 1: to 0, numbers of 0 would add nothing.
    pub(crate) fn new() -> Self {
        Digest {
            first: 1,
            second: 1,
        }
    }

    pub(crate) fn add(&mut self, number: u32) {
        let (first, second) = (u64::from(self.first), u64::from(self.second));
        self.first = ((first * 16807 + u64::from(number)) % 2147483647) as u32;
        self.second = ((second * 48271 + u64::from(number)) % 4294967291) as u32;
    }

    pub(crate) fn add_all(&mut self, numbers: &[u32]) {
        for number in numbers {
            self.add(*number);
        }
    }

    // A word counts by its two halves.
    pub(crate) fn add_word(&mut self, word: u64) {
        self.add(point_of(word));
        self.add(value_of(word));
    }
}

impl fmt::Display for Digest {
    fn fmt<W: fmt::Write>(&self, f: &mut fmt::Formatter<W>) -> fmt::Result {
        write!(f, "{} {}", self.first, self.second)
    }
}

// What adds its numbers to a digest. An enum adds the number of its case, then what the case carries.
pub(crate) trait Digested {
    fn add_to(self, digest: &mut Digest);
}
