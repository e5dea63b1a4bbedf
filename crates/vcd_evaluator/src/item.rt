// What the body of a dump says.
use crate::fault::Fault;
use crate::header::Code;
use crate::value::Value;
use crate::word::Section;

#[derive(Clone, Copy)]
pub(crate) struct Change<'t> {
    pub(crate) code: Code<'t>,
    pub(crate) value: Value<'t>,
}

#[derive(Clone, Copy)]
pub(crate) enum Said<'t> {
    Time(u64),
    Begin(Section),
    End,
    Change(Change<'t>),
}

#[derive(Clone, Copy)]
pub(crate) struct Item<'t> {
    pub(crate) said: Said<'t>,
    // The line of its first token.
    pub(crate) line: u64,
    // The greatest timestamp before it, 0 if there is none.
    pub(crate) time: u64,
    // Whether more sections began than ended before it.
    pub(crate) in_section: bool,
}

impl<'t> Item<'t> {
    pub(crate) fn mark(&self) -> Option<u64> {
        match self.said {
            Said::Time(time) => Some(time),
            _ => None,
        }
    }

    pub(crate) fn change(&self) -> Option<Change<'t>> {
        match self.said {
            Said::Change(change) => Some(change),
            _ => None,
        }
    }

    // Returns its change, if it is one of this code.
    pub(crate) fn change_of(&self, code: &Code<'_>) -> Option<Change<'t>> {
        match self.said {
            Said::Change(change) if change.code.text == code.text => Some(change),
            _ => None,
        }
    }

    // Returns whether it may be written: a section's begin or end, or a change that is no trigger
    // of an event inside a section.
    pub(crate) fn is_written(&self) -> bool {
        match self.said {
            Said::Time(_) => false,
            Said::Begin(_) | Said::End => true,
            Said::Change(change) => !(self.in_section && change.code.is_event),
        }
    }
}

// All items up to the end or to the first fault, and that fault.
#[derive(Drop)]
pub(crate) struct Body<'t> {
    pub(crate) items: Vec<Item<'t>>,
    pub(crate) fault: Option<Fault>,
}

// Returns the last timestamp.
pub(crate) fn last_mark(items: &[Item<'_>]) -> Option<u64> {
    items.iter().rev().find_map(|item| item.mark())
}
