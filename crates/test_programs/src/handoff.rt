//! A handoff on a line of any kind: one node releases the line, and another node is granted it.
ghost use Rattle.std.specs.Prelude.{◌≡◌, IfSome};
ghost use Rattle.test_programs.specs.HandingOver.{HandsOver};

use line_lanes::{Line64, Mask};
use qolb_model::{Enq, Free, LineSync, Poll, PortState};

/// Hands the line from node one to node two, and merges their views.
///
/// Node one takes the line, node two requests it behind node one, node one writes and releases, and node two is granted
/// the line. Returns what node one released and what node two sees, or `None` if another node was before one of them.
pub fn hand_over<L: LineSync<Free>>(
    line: &L,
    one: &mut L::Port,
    two: &mut L::Port,
    mask: Mask,
    bytes: &Line64,
) -> Option<(Line64, Line64)>
    requires one { L.belongs line.now one.old }
    requires two { L.belongs line.now two.old }
    requires idle_one { (L.view one.old).state ≡ PortState.Idle }
    requires idle_two { (L.view two.old).state ≡ PortState.Idle }
    ensures one { L.belongs line.now one.new }
    ensures two { L.belongs line.now two.new }
    ensures hands_over { IfSome result (λ r.
        HandsOver (L.view one.old) (L.view one.new) r.0.bytes r.1.bytes) }
{
    let Enq::Granted = line.enqolb(one) else {
        return None;
    };
    let Enq::Queued = line.enqolb(two) else {
        return None;
    };
    L::write(one, mask, bytes);
    let released = *L::bytes(one);
    line.deqolb(one);
    let Poll::Granted = line.poll(two) else {
        return None;
    };
    line.meet(one, two);
    let seen = *L::bytes(two);
    Some((released, seen))
}
