//! Tests lines that leave it to their caller to put waiters to sleep. Such a line names the word on which each waiter
//! waits, and the words that a release granted.
ghost use Rattle.std.specs.Prelude.{IfSome, IsTrue};
ghost use Rattle.qolb_model.specs.PortStates.{may_ask};

use line_generic::{Discipline, Line, NO_WORD, Port, SleepersElsewhere};
use line_lanes::Line64;
use qolb_model::{Enq, Free, LineConfig, OpenLine, Poll};
use std::alloc::Global;

/// A line whose waiters sleep elsewhere.
pub(super) type Told<Q> = Line<Free, Q, SleepersElsewhere>;

/// A line that tells by numbers where its waiters wait.
pub trait Tells: OpenLine<Free> {
    /// The word on which the port's node waits.
    fn wait_word(&self, port: &Self::Port) -> usize
        requires { Self.belongs self.now port.now };

    /// The word that the port's last release granted.
    fn went_to(&self, port: &Self::Port) -> usize;

    /// The word of the waiter behind the next holder.
    fn went_ahead(&self, port: &Self::Port) -> usize;
}

impl<Q: Discipline<Free>> Tells for Told<Q> {
    fn wait_word(&self, port: &Port<Q, SleepersElsewhere>) -> usize {
        Told::<Q>::wait_word(self, port)
    }

    fn went_to(&self, port: &Port<Q, SleepersElsewhere>) -> usize {
        Told::<Q>::went_to(self, port)
    }

    fn went_ahead(&self, port: &Port<Q, SleepersElsewhere>) -> usize {
        Told::<Q>::went_ahead(self, port)
    }
}

/// Opens a line of `nodes` nodes. Returns it with the ports of its last three.
fn open_with_last_three<L: OpenLine<Free> + Drop>(
    alloc: Global,
    nodes: u64,
) -> Option<(L, L::Port, L::Port, L::Port)>
where
    L::Port: Drop,
    ensures one { IfSome result (λ r. L.belongs r.0 r.1 × IsTrue (may_ask (L.view r.1).state)) }
    ensures two { IfSome result (λ r. L.belongs r.0 r.2 × IsTrue (may_ask (L.view r.2).state)) }
    ensures three { IfSome result (λ r. L.belongs r.0 r.3 × IsTrue (may_ask (L.view r.3).state)) }
{
    let config = LineConfig {
        nodes,
        opening: Line64::zero(),
        lease: None,
    };
    let (line, ports) = L::open_with(alloc, 0, config).ok()?;
    let mut ports = ports;
    let three = ports.pop()?;
    let two = ports.pop()?;
    let one = ports.pop()?;
    Some((line, one, two, three))
}

/// Of the last three nodes of a line of `nodes` nodes, node one holds the line, and nodes two and three queue. Node one
/// releases, node two shuts the line, and node three is told that it is closed. Returns `Some(true)` if each node names
/// its successor's word, if node one also names the word of the waiter behind that, and if node three names no word of
/// theirs. Before its first turn, node one must name `NO_WORD`.
pub(super) fn each_names_the_next<L: Tells + Drop>(alloc: Global, nodes: u64) -> Option<bool>
where
    L::Port: Drop,
{
    let (line, mut one, mut two, mut three) = open_with_last_three::<L>(alloc, nodes)?;
    let never = line.went_to(&one);
    let Enq::Granted = line.enqolb(&mut one) else {
        return None;
    };
    let Enq::Queued = line.enqolb(&mut two) else {
        return None;
    };
    let Enq::Queued = line.enqolb(&mut three) else {
        return None;
    };
    let (next, last) = (line.wait_word(&two), line.wait_word(&three));
    line.deqolb(&mut one);
    let Poll::Granted = line.poll(&mut two) else {
        return None;
    };
    line.shut(&mut two);
    let Poll::Closed = line.poll(&mut three) else {
        return None;
    };
    let told = [
        line.went_to(&one),
        line.went_ahead(&one),
        line.went_to(&two),
    ];
    let end = line.went_to(&three);
    Some(told == [next, last, last] && end != next && end != last && never == NO_WORD)
}
