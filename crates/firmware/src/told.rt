// What C is told: a number, 0 for done; the record as it is left; the orders carried out.
ghost use Rattle.std.specs.Prelude.{◌≡◌, List, ℕ, length};
ghost use Rattle.store.specs.CodeState.{answered, ended_as};
ghost use Rattle.firmware.specs.Face.{record_bytes, face_of, handed};

use crate::record::encode;
use refusals::{Refusal, number};
use store::record::Record;
use store::saved::{Saved, Stopped};

// Stores the record that a call without orders left; a refusal leaves what was held.
pub(crate) fn told(rec: &mut [u8], held: Record, said: Result<Record, Refusal>) -> u32
    requires { length rec.old ≡ record_bytes }
    ensures { (s w k : List ℕ) → face_of result 0 rec.new s w k ≡ handed (answered said held s w k) }
{
    encode(rec, said.unwrap_or(held));
    number(said)
}

// Likewise for a call that gives orders, which are counted.
// Stays beside `told`: it has a third case, power that was gone, and hands out the orders.
pub(crate) fn told_orders(
    rec: &mut [u8],
    orders: &mut u32,
    held: Record,
    said: Result<Saved, Stopped>,
) -> u32
    requires { length rec.old ≡ record_bytes }
    ensures { (s w k : List ℕ) → face_of result orders.new rec.new s w k ≡ handed (ended_as said held s w k) }
{
    let (number, left) = match said {
        Ok(saved) => (0, saved),
        Err(Stopped::PowerLost(saved)) => (u32::from(Refusal::Down), saved),
        Err(Stopped::Refused(refusal)) => (
            u32::from(refusal),
            Saved {
                orders: 0,
                rec: held,
            },
        ),
    };
    encode(rec, left.rec);
    *orders = left.orders;
    number
}
