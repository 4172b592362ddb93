//! The sequents of LKF that are still to be derived.
use crate::pending::Pending;
use crate::shared::Shared;
use fpc_base::outside::OutOfMemory;
use lkf_rules::rules::outcome::StepRefusal;
use polarised_formulas::formula::Formula;
use polarised_formulas::logic::Logic;
use polarised_formulas::step::Step;
use std::alloc::Global;
use std::marker::Model;

/// The sequents still to be derived, with their levels, the next one first.
#[derive(Drop)]
pub(crate) struct LkfPending {
    shared: Shared,
}

impl Model for LkfPending {
    ghost use Rattle.std.specs.Prelude.{List};
    ghost use Rattle.std.specs.Coded.{coded_list};
    ghost use Rattle.lkf_rules.specs.Sequent.{Levelled};
    ghost use Rattle.explicit_kernel.specs.Pending.{levelled_code};
    ghost use Rattle.explicit_kernel.specs.Shared.{pending_of, IsSound};

    ghost Value = { List Levelled };

    ghost coded = { coded_list levelled_code };

    ghost view = { λ p. pending_of p.shared };

    ghost invariant = { λ p. IsSound p.shared };
}

impl Pending for LkfPending {
    ghost use Rattle.lkf_rules.specs.Lkf.{lkf};
    ghost use Rattle.lkf_rules.proofs.Sound.{lkf_is_lawful};

    ghost calculus = { lkf };

    ghost sequents_of = { λ q. q };

    ghost lawful = { lkf_is_lawful };

    fn logic() -> Logic {
        Logic::Lkf
    }

    fn start(alloc: Global, goal: &Formula) -> Result<LkfPending, OutOfMemory> {
        Ok(LkfPending {
            shared: Shared::start(alloc, goal)?,
        })
    }

    fn is_empty(&self) -> bool {
        self.shared.is_empty()
    }

    fn play(&mut self, alloc: Global, step: Step) -> Result<(), StepRefusal> {
        self.shared.play(alloc, step)
    }
}
