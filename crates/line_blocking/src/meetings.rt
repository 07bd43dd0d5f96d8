//! Lets all ports of a line meet, which merges what the ports know about the line's history. Only proofs use this
//! knowledge, and the calls change nothing at run time.
ghost use Rattle.std.specs.Prelude.{◌≡◌, ◌<◌, length, map, All};
ghost use Rattle.qolb_model.specs.Rounds.{MeetsEach, MeetsOthers};
ghost use Rattle.line_blocking.specs.Meetings.{HaveMet};
ghost use Rattle.line_blocking.specs.ViewAndTurn.{view_and_turn};

use qolb_model::{Keep, LineSync};

/// Lets each port meet every other port. Calls `meet` for each ordered pair of ports.
pub fn meet_all<K: Keep, L: LineSync<K>>(line: &L, ports: &mut [L::Port])
    requires { All (L.belongs line.now) ports.old }
    ensures belongs { All (L.belongs line.now) ports.new }
    ensures met { HaveMet K.allows (map (view_and_turn L.view L.turn) ports.old) (length ports.old)
        (map (view_and_turn L.view L.turn) ports.new) }
    ensures len { length ports.new ≡ length ports.old }
{
    for place in 0..ports.len() {
        meet_others(line, ports, place);
    }
}

/// Lets `port` meet each of `others`, in order.
fn meet_each<K: Keep, L: LineSync<K>>(line: &L, port: &mut L::Port, others: &mut [L::Port])
    requires belongs { L.belongs line.now port.old }
    requires others { All (L.belongs line.now) others.old }
    ensures belongs { L.belongs line.now port.new }
    ensures others { All (L.belongs line.now) others.new }
    ensures meets { MeetsEach K.allows (view_and_turn L.view L.turn port.old)
        (map (view_and_turn L.view L.turn) others.old) (view_and_turn L.view L.turn port.new)
        (map (view_and_turn L.view L.turn) others.new) }
{
    for other in others.iter_mut() {
        line.meet(port, other);
    }
}

/// Lets the port at `place` meet every other port, in order.
pub fn meet_others<K: Keep, L: LineSync<K>>(line: &L, ports: &mut [L::Port], place: usize)
    requires place { place < length ports.old }
    requires belongs { All (L.belongs line.now) ports.old }
    ensures belongs { All (L.belongs line.now) ports.new }
    ensures meets { MeetsOthers K.allows place (map (view_and_turn L.view L.turn) ports.old)
        (map (view_and_turn L.view L.turn) ports.new) }
{
    let (before, rest) = ports.split_at_mut(place);
    if let Some((port, behind)) = rest.split_first_mut() {
        meet_each(line, port, before);
        meet_each(line, port, behind);
    }
}
