//! At which index each name of a list is first.

ghost use Rattle.std.specs.Prelude.{◌≡◌, ◌<◌, length, IfOk, slice_get, string_bytes, Some, map};
ghost use Rattle.commands.specs.Prelude.{Text, AreTaken, Keeps, index_of};

use std::alloc::{AllocError, Global};
use std::collections::BTreeMap;
use std::hash::{FoldHasher, Hasher};

/// The index at which each of the names so far of a list is first.
///
/// A name has a slot, by its hash. One whose slot another name has is in an ordered map: nobody
/// can choose names whose look-ups take longer than that map's.
#[derive(Drop)]
pub(crate) struct FirstIndexes<'n> {
    pub slots: Vec<Option<(&'n str, usize)>>,
    pub others: BTreeMap<&'n str, usize>,
}

impl<'n> FirstIndexes<'n> {
    /// Returns the index at which the name at this index is first, if that is an earlier one.
    /// Otherwise, this one is kept.
    #[tactic(auto, unfolding(crate::specs::inner::FirstIndexes::slot_of))]
    pub(crate) fn first_of(
        &mut self,
        alloc: Global,
        names: &'n [String],
        index: usize,
    ) -> Result<Option<usize>, AllocError>
        requires taken { AreTaken self.old }
        requires here { index < length names.now }
        ensures taken { IfOk result (λ first. AreTaken self.new) }
        ensures first { IfOk result (λ first. (name : Text) →
            slice_get (map string_bytes names.now) index ≡ Some name →
            Keeps name index (index_of self.old) (index_of self.new) first) }
    {
        if self.slots.is_empty() {
            self.slots = vec![in alloc; None; names.len().saturating_mul(4)]?;
        }
        let name = names[index].as_str();
        let mut hasher = FoldHasher::default();
        hasher.write(name.as_bytes());
        let slot = hasher.finish() as usize % self.slots.len();
        match self.slots[slot] {
            None => {
                self.slots[slot] = Some((name, index));
                Ok(None)
            }
            Some((other, first)) if other == name => Ok(Some(first)),
            Some(_) => {
                let earlier = self.others.insert(name, index)?;
                if let Some(first) = earlier {
                    self.others.insert(name, first)?;
                }
                Ok(earlier)
            }
        }
    }
}
