//! What a run loses, as it is looked up: copies and bursts, made of a loss plan.
ghost use Rattle.std.specs.Prelude.{◌≡◌, IfOk};

use super::loss_plan::LossPlan;
use super::lost_numbers::LostNumbers;
use std::alloc::AllocError;

/// The numbers of the copies and bursts that a run loses, which are looked up in little time, however many they are.
/// A number may stand twice, or never come.
#[derive(Drop)]
pub struct Losses {
    pub copies: LostNumbers,
    pub bursts: LostNumbers,
}

impl Losses {
    /// Copies those that a plan lists. It fails only where there is no memory.
    pub(super) fn listed(plan: &LossPlan) -> Result<Losses, AllocError>
        ensures copies { IfOk result (λ losses. losses.copies ≡ plan.now.copies.items) }
        ensures bursts { IfOk result (λ losses. losses.bursts ≡ plan.now.bursts.items) }
    {
        let copies = Vec::from_slice(*plan.copies.allocator(), &plan.copies)?;
        let bursts = Vec::from_slice(*plan.bursts.allocator(), &plan.bursts)?;
        Ok(Losses::from(LossPlan { copies, bursts }))
    }
}

impl From<LossPlan> for Losses {
    ghost from_gives = { λ plan losses. (losses.copies ≡ plan.copies.items) × (losses.bursts ≡ plan.bursts.items) };

    fn from(plan: LossPlan) -> Losses {
        let LossPlan { copies, bursts } = plan;
        Losses {
            copies: LostNumbers::from(copies),
            bursts: LostNumbers::from(bursts),
        }
    }
}
