//! Sequents of LKF.
ghost use Rattle.std.specs.Prelude.{◌≡◌};
ghost use Rattle.lkf_rules.specs.Values.{levelled};

use polarised_formulas::formula::Formula;
use polarised_formulas::list::Formulas;

/// A sequent with its level, the number of `all` steps on the way to it from the root.
#[derive(Drop)]
pub enum Sequent {
    /// The negative phase: the stored formulas, and those still to be worked on, the first one first.
    Up {
        level: u64,
        stored: Formulas,
        work: Formulas,
    },
    /// The positive phase: the stored formulas, and the one under focus.
    Down {
        level: u64,
        stored: Formulas,
        focus: Formula,
    },
}

impl Sequent {
    /// The sequent's level.
    pub fn level(&self) -> u64
        ensures { result ≡ (levelled self.now).0 }
    {
        match self {
            Sequent::Up { level, .. } | Sequent::Down { level, .. } => *level,
        }
    }
}
