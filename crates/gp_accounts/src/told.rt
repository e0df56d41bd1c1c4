//! What one worker was told, in order, as a trait: a list of receipts is such.
ghost use Rattle.std.specs.Prelude.{◌≡◌, List};
ghost use Rattle.gp_machine.specs.declared.entry.Receipt.{Receipt as ReceiptOf};

use gp_machine::Receipt;

/// What one worker was told, in order.
pub trait ReceiptList {
    ghost told: { Self → List ReceiptOf };

    /// Gives the receipts.
    fn receipts(&self) -> &[Receipt]
        ensures { result.now ≡ told self.now };
}

impl ReceiptList for Vec<Receipt> {
    ghost told = { λ v. v.items };

    fn receipts(&self) -> &[Receipt] {
        self.as_slice()
    }
}
