// Any inquiry, through the functions of `firmware` that `firmware_c` exports.
ghost use Rattle.std.specs.Prelude.{◌≡◌};
ghost use Rattle.firmware.specs.Face.{face_of, Asked};
ghost use Rattle.linkage.specs.Step.{save_of, asked_on};

use firmware::costs::{trapcard_apply_cost, trapcard_recover_cost, trapcard_sync_cost};

// The inquiries, by the function for C of each.
#[derive(Clone, Copy)]
pub enum Inquiry {
    SyncCost,
    ApplyCost,
    RecoverCost,
}

pub fn ask(
    inquiry: Inquiry,
    rec: &[u8],
    settled: &[u8],
    waiting: &[u8],
    work: &[u8],
    orders: &mut u32,
    applies: &mut u32,
    peak: &mut u32,
    reaches: &mut u32,
) -> u32
    ensures { ◌≡◌ {A = Asked} (record { number = result; orders = orders.new; applies = applies.new; peak = peak.new; reaches = reaches.new }) (asked_on (save_of inquiry) (face_of 0 0 rec.now settled.now waiting.now work.now)) }
{
    // Stays a match: a table of three functions would be looked up by the same three cases.
    match inquiry {
        Inquiry::SyncCost => {
            trapcard_sync_cost(rec, settled, waiting, work, orders, applies, peak, reaches)
        }
        Inquiry::ApplyCost => {
            trapcard_apply_cost(rec, settled, waiting, work, orders, applies, peak, reaches)
        }
        Inquiry::RecoverCost => {
            trapcard_recover_cost(rec, settled, waiting, work, orders, applies, peak, reaches)
        }
    }
}
