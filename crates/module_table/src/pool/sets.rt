//! Sets of info files by index: a bit for each, in words of 64.
ghost use Rattle.std.specs.Prelude.{◌⊎◌, IfOk, OnOk, ℕ, ◌≡◌};
ghost use Rattle.module_table.specs.Prelude.{HasBit, InWord, InWords};

use std::alloc::{AllocError, Global};

/// The info files of a set whose indexes have the same quotient by 64.
#[derive(Clone, Copy)]
pub(crate) struct Word {
    /// This quotient.
    pub index: usize,
    /// The bit of each, by the remainder.
    pub bits: u64,
}

/// Returns the word of one info file.
pub(crate) fn word_of(info: usize) -> Word
    ensures has { InWord result info }
    ensures alone { (k : ℕ) → InWord result k → k ≡ info }
{
    Word {
        index: info / 64,
        bits: 1 << (info % 64),
    }
}

/// Adds the info files of a word to a set. A set has the bits of all words up to its last one.
pub(crate) fn put(set: &mut Vec<u64>, word: Word) -> Result<(), AllocError>
    ensures put { OnOk result ((k : ℕ) → InWord word k → HasBit set.new.items k) }
    ensures kept { OnOk result ((k : ℕ) → HasBit set.old.items k → HasBit set.new.items k) }
    ensures alone { OnOk result
        ((k : ℕ) → HasBit set.new.items k → HasBit set.old.items k ⊎ InWord word k) }
{
    let Some(count) = word.index.checked_add(1) else {
        return Err(AllocError);
    };
    if set.len() < count {
        set.resize(count, 0)?;
    }
    set[word.index] = set[word.index] | word.bits;
    Ok(())
}

/// Returns the words of a set that are not empty.
pub(crate) fn words_of(alloc: Global, set: &[u64]) -> Result<Vec<Word>, AllocError>
    ensures { IfOk result (λ words. (k : ℕ) → HasBit set.now k → InWords words.items k) }
{
    let mut words = Vec::new(alloc);
    for (index, word) in set.iter().enumerate() {
        let bits = *word;
        if bits != 0 {
            words.push(Word { index, bits })?;
        }
    }
    Ok(words)
}
