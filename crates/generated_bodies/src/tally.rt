//! What is counted over bodies.

use crate::compare::Outcome;
use crate::form::{FORMS, MET};
use mid_code::Action;

/// How many bodies were compared, what they did, and how many of them met each form.
#[derive(Clone, Copy)]
pub(crate) struct Tally {
    pub(crate) bodies: u32,
    pub(crate) actions: usize,
    pub(crate) refused: u32,
    pub(crate) differ: u32,
    pub(crate) met: [u32; FORMS],
}

impl Tally {
    pub(crate) fn new() -> Tally {
        Tally {
            bodies: 0,
            actions: 0,
            refused: 0,
            differ: 0,
            met: [0; FORMS],
        }
    }

    /// Counts a body.
    pub(crate) fn count(&mut self, outcome: &Outcome) {
        self.bodies = self.bodies.saturating_add(1);
        self.actions = self.actions.saturating_add(outcome.actions.len());
        if !outcome.is_accepted {
            self.refused = self.refused.saturating_add(1);
        } else if !outcome.is_same {
            self.differ = self.differ.saturating_add(1);
        }
        self.count_forms(outcome.actions.as_slice());
    }

    fn count_forms(&mut self, actions: &[Action]) {
        let mut met = [false; FORMS];
        for action in actions {
            if let Action::Out(MET, form) = action {
                if usize::from(*form) < FORMS {
                    met[usize::from(*form)] = true;
                }
            }
        }
        for k in 0..FORMS {
            if met[k] {
                self.met[k] = self.met[k].saturating_add(1);
            }
        }
    }

    /// Counts what another tally counted.
    pub(crate) fn add(&mut self, other: &Tally) {
        self.bodies = self.bodies.saturating_add(other.bodies);
        self.actions = self.actions.saturating_add(other.actions);
        self.refused = self.refused.saturating_add(other.refused);
        self.differ = self.differ.saturating_add(other.differ);
        for k in 0..FORMS {
            self.met[k] = self.met[k].saturating_add(other.met[k]);
        }
    }
}
