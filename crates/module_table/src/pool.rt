//! The info files of a project, and the part of the linked ones that a target's table needs.
ghost use Rattle.std.specs.Prelude.{◌≡◌, [], get_or, IfNone, IfOk, IfSome, List, None, Some};
ghost use Rattle.module_table.specs.Prelude.{AreLinked, Covers, hasher_of, InfoValue, IsAdded};
ghost use Rattle.module_table.specs.Prelude.{IsEnough, IsKeyed, IsPool, KeepsRequired, Kept};
ghost use Rattle.module_table.specs.Prelude.{pool_entries, PoolValue};

mod links;
mod requirements;
mod rows;
mod sets;

use document_values::{Info, Rule};
pub use links::Scratch;
use links::{Links, part_of, put_links, put_words};
pub use requirements::Requirements;
use rows::{Listed, Related};
use std::alloc::{AllocError, Global};
use std::marker::Model;
use table_keys::TableKey;

/// The info files of a project's targets, by index. A contract sees them as a list, with `None` in
/// place of each info file that is not known, and the key of the pool.
///
/// [`Pool::part`] returns the few linked modules that a target needs, so the work for a target
/// grows with its rules and its links, and not with the modules of the linked targets.
pub struct Pool {
    infos: Vec<Option<Info>>,
    listed: Listed,
    /// The relations of each known info file to those before it.
    related: Vec<Option<Related>>,
}

// Not derived: this saves the prover time (docs/DECISIONS.md, "Code").
impl Drop for Pool {
    fn drop(self) {
        let Pool {
            infos: _,
            listed: _,
            related: _,
        } = self;
    }
}

impl Model for Pool {
    ghost Value = { PoolValue };

    ghost view = { λ p. record { infos = p.infos.items; key = hasher_of p.listed.names } };

    ghost invariant = { λ p. IsPool p.infos.items p.listed p.related.items
        × IsKeyed (hasher_of p.listed.names) p.listed };
}

impl Pool {
    /// Returns an empty pool. Names and files are hashed under the key.
    pub fn new(alloc: Global, key: TableKey) -> Pool
        ensures infos { result.infos ≡ [] }
        ensures key { result.key ≡ key }
    {
        Pool {
            infos: Vec::new(alloc),
            listed: Listed::new(alloc, key),
            related: Vec::new(alloc),
        }
    }

    /// Adds the info file of the next target. `None` is added in its place if one of its modules
    /// requires a module that the pool does not have. The key of the pool has to be made of the
    /// names and files of the modules, and possibly others.
    pub fn push(self, alloc: Global, info: Option<Info>) -> Result<Pool, AllocError>
        requires { IfSome info (λ info. Covers self.key (pool_entries info)) }
        ensures added { IfOk result (λ pool. IsAdded self.infos info pool.infos) }
        ensures key { IfOk result (λ pool. pool.key ≡ self.key) }
    {
        let Pool {
            mut infos,
            mut listed,
            mut related,
        } = self;
        let relations = match &info {
            Some(info) => Related::of(alloc, &infos, info, &mut listed)?,
            None => None,
        };
        infos.push(if relations.is_some() { info } else { None })?;
        related.push(relations)?;
        Ok(Pool {
            infos,
            listed,
            related,
        })
    }

    /// Returns the key of the pool.
    pub fn key(&self) -> TableKey
        ensures { result ≡ self.now.key }
    {
        *self.listed.names.hasher()
    }

    /// Returns the info file of that index, if it is known.
    pub fn known(&self, number: usize) -> Option<&Info>
        ensures found { IfSome result (λ info. get_or self.now.infos number None ≡ Some info.now) }
        ensures none { IfNone result (get_or self.now.infos number None ≡ None) }
    {
        match self.infos.get(number) {
            Some(Some(info)) => Some(info),
            _ => None,
        }
    }

    /// Returns a part of the linked info files that is enough for a table of these objects: all of
    /// the files, each with only the modules that the objects require. If `requirements` are kept,
    /// the part also has the modules that its own modules require.
    ///
    /// Returns `None` if an info file is not known or linked twice, if two linked modules have one
    /// name or one file, if an object provides a name or is a file of a linked module, or if a
    /// linked module requires a module that is not linked. The caller then builds the table of all
    /// linked modules, which reports the error. The scratch may have been used for other parts
    /// before.
    pub fn part(
        &self,
        alloc: Global,
        objects: &[Rule],
        linked: &[usize],
        requirements: Requirements,
        scratch: &mut Scratch,
    ) -> Result<Option<Vec<Info>>, AllocError>
        ensures { IfOk result (λ found. IfSome found (λ part. (infos : List InfoValue)
            × AreLinked self.now.infos linked.now infos × IsEnough objects.now part.items infos
            × (requirements ≡ Kept → KeepsRequired part.items infos))) }
    {
        let (infos, listed, related) = (&self.infos, &self.listed, &self.related);
        scratch.indexes.resize(infos.len(), 0)?;
        if !put_links(linked, &mut scratch.indexes) {
            return Ok(None);
        }
        put_words(linked, &scratch.indexes, &mut scratch.words)?;
        let links = Links {
            linked,
            indexes: &scratch.indexes,
            words: &scratch.words,
        };
        if !links.are_fit(infos, listed, related) || !links.are_apart(listed, objects) {
            return Ok(None);
        }
        scratch.picked.pick(alloc, objects, &links, listed, infos, related, requirements)?;
        part_of(alloc, infos, &links, &scratch.picked.modules, requirements)
    }
}
