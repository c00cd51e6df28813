//! What requests ask for, once their texts are read.
ghost use Rattle.std.specs.Prelude.{◌≡◌, ◌++◌, ◌&&◌, List, Some, OnOk, IfOk};
ghost use Rattle.reconcile_rules.specs.Asked.{constraints, onto_plains, onto_intervals};
ghost use Rattle.reconcile_rules.specs.Reads.{IsRead, has_none};
ghost use Rattle.reconcile_rules.specs.declared.request.PlainRequest.{PlainRequest};
ghost use Rattle.reconcile_rules.specs.declared.request.IntervalRequest.{IntervalRequest};

use super::request::{IntervalRequest, PlainRequest, Request};
use interval_sets::NoMemory;
use std::alloc::{AllocError, Global};
use version_order::{Constraint, ConstraintErr, read_constraint};

/// The plain versions and the intervals that requests ask for, each in the order of the requests.
#[derive(Drop)]
pub(crate) struct Asked {
    pub plains: Vec<PlainRequest>,
    pub intervals: Vec<IntervalRequest>,
}

/// What the requests ask for, or the number of the first whose text is no constraint.
#[derive(Drop)]
pub(crate) enum Read {
    Asked(Asked),
    Bad(u64),
}

impl Asked {
    /// Whether no request names a version.
    pub fn is_empty(&self) -> bool
        ensures { result ≡ (has_none self.now.plains.items && has_none self.now.intervals.items) }
    {
        self.plains.is_empty() && self.intervals.is_empty()
    }

    /// Puts a request for this constraint after the others.
    fn add(&mut self, number: u64, constraint: Constraint) -> Result<(), NoMemory>
        ensures plains { OnOk result ((rest : List PlainRequest) →
            self.new.plains.items ++ rest ≡ self.old.plains.items ++ onto_plains number (Some constraint) rest) }
        ensures intervals { OnOk result ((rest : List IntervalRequest) →
            self.new.intervals.items ++ rest ≡ self.old.intervals.items ++ onto_intervals number (Some constraint) rest) }
    {
        match constraint {
            Constraint::Any => Ok(()),
            Constraint::Plain(version) => {
                self.plains
                    .push(PlainRequest { number, version })
                    .map_err(AllocError::from)?;
                Ok(())
            }
            Constraint::Within(interval) => {
                self.intervals
                    .push(IntervalRequest { number, interval })
                    .map_err(AllocError::from)?;
                Ok(())
            }
        }
    }
}

/// Reads all requests, up to the first that is no constraint.
pub(crate) fn read_all(alloc: Global, requests: &[Request]) -> Result<Read, NoMemory>
    ensures { IfOk result (IsRead (constraints requests.now)) }
{
    let mut asked = Asked {
        plains: Vec::new(alloc),
        intervals: Vec::new(alloc),
    };
    for number in 0..requests.len() {
        match read_constraint(alloc, requests[number].text.as_str()) {
            Ok(constraint) => asked.add(number as u64, constraint)?,
            Err(ConstraintErr::BadConstraint(_)) => return Ok(Read::Bad(number as u64)),
            Err(ConstraintErr::NoMemory) => return Err(NoMemory),
        }
    }
    Ok(Read::Asked(asked))
}
