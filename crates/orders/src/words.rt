// The words of a line: what stands between blanks.

// A space or a tab.
pub(crate) fn is_blank(byte: u8) -> bool {
    matches!(byte, b' ' | b'\t')
}

// The words of a line that are still to be read.
#[derive(Clone, Copy)]
pub(crate) struct Words<'a> {
    left: &'a [u8],
}

impl<'a> Words<'a> {
    pub(crate) fn of(line: &'a [u8]) -> Self {
        Words { left: line }
    }

    // The next word; none at the line's end.
    pub(crate) fn next(&mut self) -> Option<&'a [u8]> {
        let start = self.left.iter().position(|byte| !is_blank(*byte))?;
        let begun = &self.left[start..];
        let length = begun.iter().position(|byte| is_blank(*byte));
        let (word, left) = begun.split_at(length.unwrap_or(begun.len()));
        self.left = left;
        Some(word)
    }

    // What stands behind the words read, byte by byte.
    pub(crate) fn rest(self) -> &'a [u8] {
        self.left
    }
}
