//! Modules with numbers.
ghost use Rattle.std.specs.Prelude.{◌≡◌, [], IfOk};
ghost use Rattle.res_base.specs.Names.{module_eq};
ghost use Rattle.round_core.specs.Tables.{number_in, once};

use res_base::{Copied, Module, NoMemory};
use std::alloc::Global;
use std::collections::BTreeMap;
use std::marker::Model;

/// Modules, each once, with numbers from 0 in the order in which they came. Contracts see the list
/// of them.
#[derive(Drop)]
pub(crate) struct ModuleTable {
    names: Vec<Module>,
    /// The number of each module, in an ordered table: strangers choose the names.
    numbers: BTreeMap<Module, usize>,
}

impl Model for ModuleTable {
    ghost use Rattle.std.specs.Prelude.{List};
    ghost use Rattle.res_base.specs.declared.coord.Module.{Module as Name};
    ghost use Rattle.round_core.specs.Tables.{HasNumbers};

    ghost Value = { List Name };

    ghost view = { λ table. table.names.items };

    ghost invariant = { λ table. HasNumbers table.names.items table.numbers };
}

impl ModuleTable {
    pub fn new(alloc: Global) -> ModuleTable
        ensures { result ≡ [] }
    {
        ModuleTable {
            names: Vec::new(alloc),
            numbers: BTreeMap::new(alloc),
        }
    }

    pub fn names(&self) -> &[Module]
        ensures { result.now ≡ self.now }
    {
        self.names.as_slice()
    }

    /// The number of a module, if it has one.
    pub fn number_of(&self, module: &Module) -> Option<usize>
        ensures { result ≡ number_in self.now «module».now }
    {
        self.numbers.get(module).copied()
    }

    /// The table with one module more, unless it has it.
    pub fn with(self, alloc: Global, module: &Module) -> Result<ModuleTable, NoMemory>
        ensures { IfOk result (λ made. made ≡ once module_eq self «module».now) }
    {
        let ModuleTable {
            mut names,
            mut numbers,
        } = self;
        if numbers.contains_key(module) {
            return Ok(ModuleTable { names, numbers });
        }
        numbers.insert(module.copy(alloc)?, names.len())?;
        names.push(module.copy(alloc)?)?;
        Ok(ModuleTable { names, numbers })
    }
}
