//! Keys: which file of which repository.
ghost use Rattle.std.specs.Prelude.{◌≡◌, ◌++◌, nat_eq};
ghost use Rattle.std.proofs.Common.{rules};
ghost use Rattle.std.specs.Cmp.{partial_order_from_own_ties};
ghost use Rattle.std.specs.Cmp.Rules.{comparing, hashing};
ghost use Rattle.std.specs.Hash as fed;
ghost use Rattle.std.specs.Ordering.{nat_cmp, as_partial_cmp};
ghost use Rattle.res_base.specs.Names.{key_cmp, key_eq, role_cmp, role_eq, role_number};

use crate::{Copied, NoMemory, Text};
use std::alloc::Global;
use std::cmp::Ordering;
use std::hash::{Hash, Hasher};

/// What a file is for. Roles are ordered as they stand here.
#[derive(Clone, Copy, Debug, Drop)]
pub enum Role {
    /// A project's POM.
    Pom,
    /// A module's `maven-metadata.xml`, which lists its versions.
    Listing,
    /// What a project publishes, as its jar.
    Artifact,
}

/// A file of a repository. Keys are ordered by repository, then by the bytes of the path, then by
/// role.
#[derive(Debug, Drop)]
pub struct FileKey {
    /// The place of the repository in the listed order, from 0.
    pub repo: u32,
    pub role: Role,
    /// The path below the repository's address.
    pub path: Text,
}

impl Role {
    fn number(self) -> u8
        ensures { result ≡ role_number self }
    {
        self as u8
    }
}

impl PartialEq for Role {
    ghost eq = { role_eq };

    ghost laws = { Prim.search (comparing, rules) };

    fn eq(&self, other: &Role) -> bool {
        self.number() == other.number()
    }
}

impl Eq for Role {
    ghost laws = { Prim.search (comparing, rules) };
}

impl PartialOrd for Role {
    ghost partial_cmp = { as_partial_cmp role_cmp };

    ghost laws = { Prim.search (comparing, rules) };

    fn partial_cmp(&self, other: &Role) -> Option<Ordering> {
        Some(self.cmp(other))
    }
}

impl Ord for Role {
    ghost cmp = { role_cmp };

    ghost total = { Prim.search (comparing, rules) };

    ghost matches_partial_cmp = { Prim.search (comparing, rules) };

    ghost matches_eq = { Prim.search (comparing, rules) };

    fn cmp(&self, other: &Role) -> Ordering {
        self.number().cmp(&other.number())
    }
}

impl Hash for Role {
    ghost hash_input = { λ role. fed.u8 (role_number role) };

    ghost respects_eq = { Prim.search (hashing, rules) };

    fn hash<H: Hasher>(&self, state: &mut H) {
        state.write_u8(self.number());
    }
}

impl PartialEq for FileKey {
    ghost eq = { key_eq };

    ghost laws = { Prim.search (comparing, rules) };

    fn eq(&self, other: &FileKey) -> bool {
        self.repo == other.repo && self.path == other.path && self.role == other.role
    }
}

impl Eq for FileKey {
    ghost laws = { Prim.search (comparing, rules) };
}

impl PartialOrd for FileKey {
    ghost partial_cmp = { as_partial_cmp key_cmp };

    ghost laws = { partial_order_from_own_ties (Prim.search (comparing, rules)) (Prim.search (comparing, rules)) };

    fn partial_cmp(&self, other: &FileKey) -> Option<Ordering> {
        Some(self.cmp(other))
    }
}

impl Ord for FileKey {
    ghost cmp = { key_cmp };

    ghost total = { Prim.search (comparing, rules) };

    ghost matches_partial_cmp = { Prim.search (comparing, rules) };

    ghost matches_eq = { Prim.search (comparing, rules) };

    fn cmp(&self, other: &FileKey) -> Ordering {
        let by_repo = self.repo.cmp(&other.repo);
        let by_path = self.path.cmp(&other.path);
        by_repo.then(by_path).then(self.role.cmp(&other.role))
    }
}

impl Hash for FileKey {
    ghost hash_input = { λ key. fed.u32 key.repo ++ (fed.str key.path ++ fed.u8 (role_number key.role)) };

    ghost respects_eq = { Prim.search (hashing, rules) };

    fn hash<H: Hasher>(&self, state: &mut H) {
        state.write_u32(self.repo);
        self.path.hash(state);
        self.role.hash(state);
    }
}

impl Copied for Role {
    fn copy(&self, _alloc: Global) -> Result<Role, NoMemory> {
        Ok(*self)
    }
}

impl Copied for FileKey {
    fn copy(&self, alloc: Global) -> Result<FileKey, NoMemory> {
        Ok(FileKey {
            repo: self.repo,
            role: self.role,
            path: self.path.copy(alloc)?,
        })
    }
}
