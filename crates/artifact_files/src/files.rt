//! The artifacts of a settled resolution.
ghost use Rattle.std.specs.Prelude.{◌≡◌, IfOk};
ghost use Rattle.std.specs.Option.{option_copied};
ghost use Rattle.artifact_files.specs.Files.{artifact_keys, files_of, with_edge as files_with_edge, with_file as keys_with_file, with_key as keys_with, with_name as files_with_name, with_path as keys_with_path, with_target as files_with_target};
ghost use Rattle.artifact_files.specs.Names.{named as name_for};

use super::names::{FileName, NodeFile, is_fit, named};
use res_base::{Copied, FileKey, List, NoMemory, Role, Text, file_path};
use resolution::{Edge, Node, Settled};
use std::alloc::Global;
use std::collections::BTreeSet;
use std::marker::Model;

/// Files in order, each once. Contracts see the list of them.
#[derive(Drop)]
pub(crate) struct FileTable {
    files: BTreeSet<NodeFile>,
}

impl Model for FileTable {
    ghost use Rattle.std.specs.Prelude.{List};
    ghost use Rattle.artifact_files.specs.declared.names.NodeFile.{NodeFile as File};

    ghost Value = { List File };

    ghost view = { λ table. table.files.keys };
}

impl FileTable {
    fn with_name(
        self,
        alloc: Global,
        place: u64,
        name: Option<FileName>,
    ) -> Result<FileTable, NoMemory>
        ensures { IfOk result (λ made. made ≡ files_with_name self place name) }
    {
        match name {
            None => Ok(self),
            Some(name) => {
                if !is_fit(alloc, &name)? {
                    return Ok(self);
                }
                let FileTable { mut files } = self;
                files.insert(NodeFile { place, name })?;
                Ok(FileTable { files })
            }
        }
    }

    /// With the file that an edge names of its target.
    fn with_target(
        self,
        alloc: Global,
        edge: &Edge,
        node: Option<&Node>,
    ) -> Result<FileTable, NoMemory>
        ensures { IfOk result (λ made. made ≡ files_with_target self edge.now (option_copied node.entry)) }
    {
        match node {
            None => Ok(self),
            Some(node) => {
                if node.moved {
                    return Ok(self);
                }
                let packaging = node.packaging.as_str();
                let kind = edge.kind.as_str();
                let name = named(alloc, packaging, kind, edge.classifier.as_str())?;
                self.with_name(alloc, edge.target, name)
            }
        }
    }

    fn with_edge(
        self,
        alloc: Global,
        nodes: &List<Node>,
        edge: &Edge,
    ) -> Result<FileTable, NoMemory>
        ensures { IfOk result (λ made. made ≡ files_with_edge nodes.now self edge.now) }
    {
        self.with_target(alloc, edge, nodes.get(edge.target as usize))
    }

    /// The files that all edges name.
    fn of(alloc: Global, settled: &Settled) -> Result<FileTable, NoMemory>
        ensures { IfOk result (λ made. made ≡ files_of settled.now) }
    {
        let mut made = FileTable {
            files: BTreeSet::new(alloc),
        };
        for edge in settled.edges.as_slice() {
            made = made.with_edge(alloc, &settled.nodes, edge)?;
        }
        Ok(made)
    }
}

/// The keys of files, of which the first with a path counts. Contracts see the paths in order, and
/// the keys.
#[derive(Drop)]
pub(crate) struct KeyTable {
    paths: BTreeSet<Text>,
    keys: List<FileKey>,
}

impl Model for KeyTable {
    ghost use Rattle.artifact_files.specs.Files.{Keys};

    ghost Value = { Keys };

    ghost view = { λ table. record { paths = table.paths.keys; keys = table.keys } };
}

impl KeyTable {
    fn with_path(self, alloc: Global, repo: u32, path: Text) -> Result<KeyTable, NoMemory>
        ensures { IfOk result (λ made. made ≡ keys_with_path self repo path) }
    {
        let KeyTable {
            mut paths,
            mut keys,
        } = self;
        if paths.contains(&path) {
            return Ok(KeyTable { paths, keys });
        }
        paths.insert(path.copy(alloc)?)?;
        keys.push(FileKey {
            repo,
            role: Role::Artifact,
            path,
        })?;
        Ok(KeyTable { paths, keys })
    }

    fn with_key(
        self,
        alloc: Global,
        name: &FileName,
        node: Option<&Node>,
    ) -> Result<KeyTable, NoMemory>
        ensures { IfOk result (λ made. made ≡ keys_with self name.now (option_copied node.entry)) }
    {
        match node {
            None => Ok(self),
            Some(node) => {
                let ext = name.ext.as_str();
                let path = file_path(alloc, &node.coord, ext, name.classifier.as_str())?;
                self.with_path(alloc, node.repo, path)
            }
        }
    }

    fn with_file(
        self,
        alloc: Global,
        nodes: &List<Node>,
        file: &NodeFile,
    ) -> Result<KeyTable, NoMemory>
        ensures { IfOk result (λ made. made ≡ keys_with_file nodes.now self file.now) }
    {
        self.with_key(alloc, &file.name, nodes.get(file.place as usize))
    }
}

/// The keys of the artifacts of a settled resolution, for `fetch`.
///
/// Each node that has not moved has the artifacts that its edges name by their types and
/// classifiers, each once. They are in order of the nodes, then of the extensions, then of the
/// classifiers; of several with one path the first counts. An artifact is in the repository in
/// which its project was found. One whose extension or classifier is not plain is left out.
///
/// The coordinates of the nodes are to be plain, else a path may lead elsewhere.
pub fn artifacts(alloc: Global, settled: &Settled) -> Result<List<FileKey>, NoMemory>
    ensures { IfOk result (λ made. made ≡ artifact_keys settled.now) }
{
    let FileTable { files } = FileTable::of(alloc, settled)?;
    let mut made = KeyTable {
        paths: BTreeSet::new(alloc),
        keys: List::new(alloc),
    };
    for file in files {
        made = made.with_file(alloc, &settled.nodes, &file)?;
    }
    Ok(made.keys)
}
