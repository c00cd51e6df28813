//! Texts that are cut once, with the places of their names.
ghost use Rattle.std.specs.Prelude.{◌≡◌, IfOk};
ghost use Rattle.property_text.specs.Cuts.{AreCut, IsCut};

use super::holes::first_hole;
use super::values::Values;
use res_base::NoMemory;
use std::alloc::Global;

/// A hole, what stands before it, and the place of its name among the values.
#[derive(Clone, Copy)]
pub(crate) struct CutHole<'a> {
    pub before: &'a str,
    pub name: &'a str,
    pub place: Option<usize>,
}

/// A text as its holes and what stands behind the last of them.
#[derive(Drop)]
pub(crate) struct Cut<'a> {
    pub holes: Vec<CutHole<'a>>,
    pub rest: &'a str,
}

impl<'a> Values<'a> {
    /// Cuts a text, in one pass.
    pub(crate) fn cut<'b>(&self, alloc: Global, text: &'b str) -> Result<Cut<'b>, NoMemory>
        ensures { IfOk result (λ cut. IsCut self.now text.now cut) }
    {
        let mut holes: Vec<CutHole<'b>> = Vec::new(alloc);
        let mut rest = text;
        while let Some(hole) = first_hole(rest) {
            holes.push(CutHole {
                before: hole.before,
                name: hole.name,
                place: self.place(hole.name),
            })?;
            rest = hole.behind;
        }
        Ok(Cut { holes, rest })
    }

    /// Cuts each value.
    pub(crate) fn cuts(&self, alloc: Global) -> Result<Vec<Cut<'a>>, NoMemory>
        ensures { IfOk result (λ cuts. AreCut self.now self.now cuts.items) }
    {
        let pairs = self.pairs();
        let mut cuts: Vec<Cut<'a>> = Vec::new(alloc);
        for pair in pairs {
            cuts.push(self.cut(alloc, pair.1)?)?;
        }
        Ok(cuts)
    }
}
