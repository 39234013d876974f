// The operations on two distances (pciv_format, specs/Arith.antt).
ghost use Rattle.std.specs.Prelude.{◌≡◌, ◌≤◌};
ghost use Rattle.pciv_format.specs.Layout.{max_distance};
ghost use Rattle.pciv_format.specs.Arith.{slot_op};

use pciv_format::SlotOp;

// The operation on two distances, whose result is a distance.
pub fn slot_op(op: SlotOp, x: u32, y: u32) -> u32
    requires { slot_op op x y ≤ max_distance }
    ensures { result ≡ slot_op op x y }
{
    match op {
        SlotOp::Minimum => x.min(y),
        SlotOp::Maximum => x.max(y),
        SlotOp::Sum => x + y,
        SlotOp::Difference => x.saturating_sub(y),
    }
}
