//! The memory of a store.
ghost use Rattle.std.specs.Prelude.{◌≡◌, replicate, IfOk};
ghost use Rattle.trial.specs.Plans.{holding, octets as octets-held, words as words-held, words_in};

use std::alloc::{AllocError, Global};

/// The memory of a store, of one kind or the other.
#[derive(Drop)]
pub enum Memory {
    /// The octets of a strip.
    Strip(Vec<u8>),
    /// The words of a column.
    Column(Vec<u32>),
}

impl Memory {
    // A strip of so many octets, each with all bits set.
    pub(crate) fn fresh_strip(heap: Global, count: u32) -> Result<Memory, AllocError>
        ensures { IfOk result (λ m. holding m ≡ octets-held (replicate count 255)) }
    {
        Ok(Memory::Strip(vec![in heap; 0xff; count as usize]?))
    }

    // A column of so many words, each with all bits set.
    pub(crate) fn fresh_column(heap: Global, count: u32) -> Result<Memory, AllocError>
        ensures { IfOk result (λ m. holding m ≡ words-held (replicate count 4294967295)) }
    {
        Ok(Memory::Column(vec![in heap; 0xffff_ffff; count as usize]?))
    }

    // The column of the words that octets write, four to a word, the most significant first.
    pub(crate) fn column(heap: Global, octets: &[u8]) -> Result<Memory, AllocError>
        ensures { IfOk result (λ m. holding m ≡ words-held (words_in octets.now)) }
    {
        let mut words = Vec::new(heap);
        for word in octets.chunks_exact(4) {
            words.push(u32::from_be_bytes([word[0], word[1], word[2], word[3]]))?;
        }
        Ok(Memory::Column(words))
    }
}
