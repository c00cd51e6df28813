//! Texts, filled.
ghost use Rattle.std.specs.Prelude.{◌≡◌, ◌≤◌, All, length, IfOk};
ghost use Rattle.property_text.specs.Cuts.{IsPlaced, segments_of};
ghost use Rattle.property_text.specs.Filled.{as_written, filled, filled_hole, filled_segments, filled_value};
ghost use Rattle.property_text.specs.Progress.{IsAppended, IsOutcome, filling_of};
ghost use Rattle.property_text.specs.Values.{value_in};

use super::cuts::{Cut, CutHole};
use super::values::Values;
use res_base::{Copied, NoMemory, Text};
use std::alloc::Global;
use std::marker::Model;

/// How many values may stand in one another.
const DEPTH: u32 = 32;
/// How many values may stand in one text, in one another or not.
const COUNT: u32 = 1024;
/// How many bytes a filled text may have.
const SIZE: usize = 65536;

/// A text that is being filled, and how many more values it may take.
#[derive(Drop)]
pub struct Progress {
    pub text: Text,
    pub left: u32,
}

impl Progress {
    /// Puts a text at the end, and says whether it fits there.
    fn push(&mut self, more: &str) -> Result<bool, NoMemory>
        ensures { IfOk result (λ fits. IsAppended fits self.old more.now self.new) }
    {
        if self.text.len().saturating_add(more.len()) > SIZE {
            return Ok(false);
        }
        self.text.push_str(more)?;
        Ok(true)
    }

    /// Puts a hole at the end as it was written, and says whether it fits there.
    fn push_written(&mut self, name: &str) -> Result<bool, NoMemory>
        ensures { IfOk result (λ fits. IsAppended fits self.old (as_written name.now) self.new) }
    {
        if self.text.len().saturating_add(name.len()).saturating_add(3) > SIZE {
            return Ok(false);
        }
        self.text.push_str("${")?;
        self.text.push_str(name)?;
        self.text.push_str("}")?;
        Ok(true)
    }
}

/// Values that are cut, each name in them looked up once: a use of a value costs what it puts into
/// a text, and not the length of the value. Contracts see the pairs.
#[derive(Drop)]
pub struct CutValues<'a> {
    values: Values<'a>,
    cuts: Vec<Cut<'a>>,
}

impl<'a> Model for CutValues<'a> {
    ghost use Rattle.std.specs.Prelude.{List};
    ghost use Rattle.property_text.specs.Cuts.{AreCut};
    ghost use Rattle.property_text.specs.Values.{Pair};

    ghost Value = { List Pair };

    ghost view = { λ made. made.values };

    ghost invariant = { λ made. AreCut made.values made.values made.cuts.items };
}

impl<'a> CutValues<'a> {
    pub fn of(alloc: Global, values: Values<'a>) -> Result<CutValues<'a>, NoMemory>
        ensures { IfOk result (λ made. made ≡ values.entry) }
    {
        let cuts = values.cuts(alloc)?;
        Ok(CutValues { values, cuts })
    }

    /// Puts a hole at the end, filled where its name has a value, and so many values may stand in
    /// one another. Says whether that is within the limits.
    #[cycle(fill)]
    fn push_hole(
        &self,
        hole: &CutHole<'_>,
        depth: u32,
        progress: &mut Progress,
    ) -> Result<bool, NoMemory>
        requires size { length progress.old.text ≤ SIZE }
        requires placed { IsPlaced self.now hole.now }
        ensures { IfOk result (λ within. IsOutcome within (filling_of progress.old) (filled_hole (filled_value (value_in self.now) depth) hole.now.name.now (value_in self.now hole.now.name.now) progress.old.left) (filling_of progress.new)) }
    {
        match hole.place {
            None => progress.push_written(hole.name),
            Some(place) => {
                if depth == 0 || progress.left == 0 {
                    return Ok(false);
                }
                progress.left -= 1;
                self.push_cut(&self.cuts[place], depth - 1, progress)
            }
        }
    }

    /// Puts a text at the end, filled, where so many values may stand in one another. Says whether
    /// that is within the limits.
    #[cycle(fill)]
    fn push_cut(&self, cut: &Cut<'_>, depth: u32, progress: &mut Progress) -> Result<bool, NoMemory>
        requires size { length progress.old.text ≤ SIZE }
        requires placed { All (IsPlaced self.now) cut.now.holes.items }
        ensures { IfOk result (λ within. IsOutcome within (filling_of progress.old) (filled_segments (value_in self.now) (filled_value (value_in self.now) depth) (segments_of cut.now) progress.old.left) (filling_of progress.new)) }
    {
        for hole in &cut.holes {
            if !progress.push(hole.before)? {
                return Ok(false);
            }
            if !self.push_hole(hole, depth, progress)? {
                return Ok(false);
            }
        }
        progress.push(cut.rest)
    }

    /// A text with the values of its names in their places: `${name}`, up to the next `}`, gives
    /// way to the value of the name, which is filled in turn. A name without a value and a `${`
    /// without a `}` stay as written.
    ///
    /// Where more than 32 values would stand in one another, more than 1,024 in all, or more than
    /// 65,536 bytes in the end, the text stays as written as a whole.
    pub fn fill(&self, alloc: Global, text: &Text) -> Result<Text, NoMemory>
        ensures { IfOk result (λ made. made ≡ filled (value_in self.now) text.now) }
    {
        let cut = self.values.cut(alloc, text.as_str())?;
        let mut progress = Progress {
            text: Text::new(alloc),
            left: COUNT,
        };
        if self.push_cut(&cut, DEPTH, &mut progress)? {
            let Progress { text, .. } = progress;
            Ok(text)
        } else {
            text.copy(alloc)
        }
    }
}
