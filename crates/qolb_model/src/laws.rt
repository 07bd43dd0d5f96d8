//! Theorems about lines that follow from the definitions in the contracts. Each theorem is the contract of a function
//! that does nothing.
ghost use Rattle.std.specs.Prelude.{◌≡◌};
ghost use Rattle.qolb_model.specs.Laws.{NoRequestStandsTwice, NoneIsServedAfterClosing, LeaseBounds, OpenLineHasTurns, OnlyServedEndsWrite, GoodStaysGood, ClearPortIsNotBusy, ExtendsThrough, PartIsOfOneHistory, EachTwoAreOfOneHistory, FewerEndsBegin, SameEndsSameBytes, OneNodeHolds, BoundedBypass, FewTurnsBefore, FewWaitAtOnce, NewPortsAreOfOneHistory, PortsThatMetKnowTheSame, SumsAreOfEachPort, ClosedByLeaseAlone, NoneIsTold};

use crate::config::MAX_NODES;
use crate::keep::Keep;

/// No request occurs twice in a legal order.
pub fn no_request_stands_twice()
    ensures { NoRequestStandsTwice }
{}

/// No request is served once the line is closed.
pub fn none_is_served_after_closing()
    ensures { NoneIsServedAfterClosing }
{}

/// No more turns are served than the lease allows, and the last of them closes the line.
pub fn lease_bounds()
    ensures { LeaseBounds }
{}

/// An open line has at least one turn left.
pub fn open_line_has_turns()
    ensures { OpenLineHasTurns }
{}

/// Only served ends change bytes.
pub fn only_served_ends_write()
    ensures { OnlyServedEndsWrite }
{}

/// Good bytes stay good if every turn keeps the data invariant.
pub fn good_stays_good<K: Keep>()
    ensures { GoodStaysGood K.good K.allows }
{}

/// A clear port is not busy at its next request.
pub fn clear_port_is_not_busy<K: Keep>()
    ensures { ClearPortIsNotBusy K.allows }
{}

/// Extending a view is transitive. Therefore a port forgets nothing over a sequence of calls.
pub fn extends_through()
    ensures { ExtendsThrough }
{}

/// If some views belong to one history, any subset of these views belongs to one history.
pub fn part_is_of_one_history()
    ensures { PartIsOfOneHistory }
{}

/// If some views belong to one history, any two of these views belong to one history.
pub fn each_two_are_of_one_history()
    ensures { EachTwoAreOfOneHistory }
{}

/// Of two ports, the one that knows fewer ends knows a prefix of the other's ends.
pub fn fewer_ends_begin()
    ensures { FewerEndsBegin }
{}

/// Ports that know the same number of ends know the same bytes.
pub fn same_ends_same_bytes()
    ensures { SameEndsSameBytes }
{}

/// No two nodes hold the line at the same time.
pub fn one_node_holds()
    ensures { OneNodeHolds }
{}

/// Bounded bypass: between a request and its turn, fewer other requests end than the line has nodes.
pub fn bounded_bypass()
    ensures { BoundedBypass }
{}

/// From the time when a request begins to wait until its turn, fewer requests end than the line has nodes.
pub fn few_turns_before()
    ensures { FewTurnsBefore }
{}

/// On a line with one owner, no more requests are open than the line has nodes.
pub fn few_wait_at_once()
    ensures { FewWaitAtOnce }
{}

/// A line has at most 200 nodes.
pub fn most_nodes()
    ensures { MAX_NODES ≡ 200 }
{}

/// The views of the ports that `open` returns belong to one history.
pub fn new_ports_are_of_one_history()
    ensures { NewPortsAreOfOneHistory }
{}

/// Two ports that have met know the same lists.
pub fn ports_that_met_know_the_same()
    ensures { PortsThatMetKnowTheSame }
{}

/// The total change by all turns of a finished line is the sum of the changes by each port's own turns.
pub fn sums_are_of_each_port<K: Keep>()
    ensures { SumsAreOfEachPort K.good K.allows }
{}

/// If no port has shut a finished line, only its lease has closed it.
pub fn closed_by_lease_alone<K: Keep>()
    ensures { ClosedByLeaseAlone K.good K.allows }
{}

/// If a finished line had no lease and no port has shut it, none of its requests was told that it is closed.
pub fn none_is_told<K: Keep>()
    ensures { NoneIsTold K.good K.allows }
{}
