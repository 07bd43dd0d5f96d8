//! Makes calls on a task board, one after another, and checks the answers.
ghost use Rattle.std.specs.Prelude.{IsTrue};
ghost use Rattle.qolb_model.specs.PortStates.{may_ask};

use line_board::{BoardLaw, Put, Take, put, take};
use qolb_model::{Enq, LineSync, PortState};

/// Puts the tasks 1 to 8, and then takes eight times.
pub fn eight_tasks<L: LineSync<BoardLaw>>(line: &L, port: &mut L::Port) -> ([Put; 8], [Take; 8])
    requires belongs { L.belongs line.now port.old }
    requires state { IsTrue (may_ask (L.view port.old).state) }
    ensures belongs { L.belongs line.now port.new }
    ensures state { IsTrue (may_ask (L.view port.new).state) }
{
    let mut puts = [Put::Busy; 8];
    for (k, answer) in puts.iter_mut().enumerate() {
        *answer = put(line, port, k as u64 + 1, 0);
    }
    let mut takes = [Take::Busy; 8];
    for answer in takes.iter_mut() {
        *answer = take(line, port, 0);
    }
    (puts, takes)
}

/// Puts 5 and 9, and returns the line's bytes as the next holder sees them.
pub fn two_tasks<L: LineSync<BoardLaw>>(
    line: &L,
    port: &mut L::Port,
) -> ([Put; 2], Option<[u8; 64]>)
    requires belongs { L.belongs line.now port.old }
    requires state { IsTrue (may_ask (L.view port.old).state) }
    ensures { L.belongs line.now port.new }
{
    let puts = [put(line, port, 5, 0), put(line, port, 9, 0)];
    match line.enqolb(port) {
        Enq::Granted => {
            let seen = L::bytes(port).to_bytes();
            line.deqolb(port);
            (puts, Some(seen))
        }
        _ => (puts, None),
    }
}

/// Puts twice while `holder` holds the line. After its release the views are merged, and `port` puts once and takes
/// twice. Also returns the port's state between the first two puts. Returns `None` if `holder` is not granted the line.
pub fn late_node<L: LineSync<BoardLaw>>(
    line: &L,
    holder: &mut L::Port,
    port: &mut L::Port,
) -> Option<([Put; 3], PortState, [Take; 2])>
    requires belongs_holder { L.belongs line.now holder.old }
    requires belongs { L.belongs line.now port.old }
    requires state_holder { IsTrue (may_ask (L.view holder.old).state) }
    requires state { IsTrue (may_ask (L.view port.old).state) }
    ensures belongs_holder { L.belongs line.now holder.new }
    ensures belongs { L.belongs line.now port.new }
    ensures state { IsTrue (may_ask (L.view port.new).state) }
{
    match line.enqolb(holder) {
        Enq::Granted => {}
        _ => return None,
    }
    let late = put(line, port, 5, 0);
    let state = L::state(port);
    let busy = put(line, port, 5, 0);
    line.deqolb(holder);
    line.meet(holder, port);
    let stored = put(line, port, 5, 0);
    let takes = [take(line, port, 0), take(line, port, 0)];
    Some(([late, busy, stored], state, takes))
}

/// Puts without a poll while `holder` holds the line, then puts and takes.
///
/// The last two poll up to `patience` times each. Returns `None` if `holder` is not granted the line.
pub fn busy_node<L: LineSync<BoardLaw>>(
    line: &L,
    holder: &mut L::Port,
    port: &mut L::Port,
    patience: u64,
) -> Option<([Put; 2], Take)>
    requires belongs_holder { L.belongs line.now holder.old }
    requires belongs { L.belongs line.now port.old }
    requires state_holder { IsTrue (may_ask (L.view holder.old).state) }
    requires state { IsTrue (may_ask (L.view port.old).state) }
{
    match line.enqolb(holder) {
        Enq::Granted => {}
        _ => return None,
    }
    let late = put(line, port, 5, 0);
    let busy = put(line, port, 6, patience);
    Some(([late, busy], take(line, port, patience)))
}

/// Puts once, takes twice, reads the port's state, then puts and takes: over a line with a lease of three turns.
pub fn three_turns<L: LineSync<BoardLaw>>(
    line: &L,
    port: &mut L::Port,
) -> ([Put; 2], [Take; 3], PortState)
    requires belongs { L.belongs line.now port.old }
    requires state { IsTrue (may_ask (L.view port.old).state) }
    ensures belongs { L.belongs line.now port.new }
    ensures state { IsTrue (may_ask (L.view port.new).state) }
{
    let stored = put(line, port, 5, 0);
    let task = take(line, port, 0);
    let empty = take(line, port, 0);
    let state = L::state(port);
    let late_put = put(line, port, 6, 0);
    let late_take = take(line, port, 0);
    ([stored, late_put], [task, empty, late_take], state)
}
