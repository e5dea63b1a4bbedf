// A text that grows.
use crate::token::{is_white, split_before};
use std::alloc::{AllocError, Global};

// The bytes so far. If memory runs out, what is put after that is lost, and the text is not whole.
#[derive(Drop)]
pub(crate) struct Text {
    bytes: Vec<u8>,
    is_whole: bool,
    alloc: Global,
}

impl Text {
    pub(crate) fn new(alloc: Global) -> Self {
        Text {
            bytes: Vec::new(alloc),
            is_whole: true,
            alloc,
        }
    }

    pub(crate) fn put(&mut self, bytes: &[u8]) {
        let put = self.bytes.extend_from_slice(bytes);
        self.is_whole = self.is_whole && put.is_ok();
    }

    pub(crate) fn put_byte(&mut self, byte: u8) {
        let put = self.bytes.push(byte);
        self.is_whole = self.is_whole && put.is_ok();
    }

    pub(crate) fn put_number(&mut self, number: u64) {
        match number.to_string(self.alloc) {
            Ok(digits) => self.put(digits.as_bytes()),
            Err(_) => self.is_whole = false,
        }
    }

    // Writes the tokens of some bytes, with a space between.
    pub(crate) fn put_words(&mut self, bytes: &[u8]) {
        let (first, rest) = split_before(bytes, true);
        self.put(first);
        for word in rest.split(|byte| is_white(*byte)) {
            if !word.is_empty() {
                self.put_byte(b' ');
                self.put(word);
            }
        }
    }

    // Returns the whole text. Fails if memory ran out.
    pub(crate) fn finish(self) -> Result<Vec<u8>, AllocError> {
        if self.is_whole {
            Ok(self.bytes)
        } else {
            Err(AllocError)
        }
    }
}
