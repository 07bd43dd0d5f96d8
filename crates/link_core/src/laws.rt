//! Theorems about the events of the core, for use in the proof of `link_line`. The shared words of a `link_line` are
//! those of a core. Each theorem is the contract of a function that does nothing.

ghost use Rattle.link_core.specs.Laws.{OpenedShows, EachEventKeeps, MovesAreMade, EventsAreEnabled, EventsHaveOneEffect, AddsFindUnset, NodesFind, SizesStay, LastsHavePlaces, WalksAreShort, EndsClose, RunsMove, FewAreOpen, EventsGoDown, OpenHaveWays, WaysStay, FewAreLeft, PathsAreShort, RunsAreShort};

/// A new line represents the empty queue.
pub fn opened_shows()
    ensures { OpenedShows }
{}

/// Each event preserves the invariant that the state represents a queue. The event makes its move of the queue, and
/// changes nothing for the other nodes.
pub fn each_event_keeps()
    ensures { EachEventKeeps }
{}

/// The queue after an event is the queue after the event's move.
pub fn moves_are_made()
    ensures { MovesAreMade }
{}

/// An event has an effect only if its node's point allows it.
pub fn events_are_enabled()
    ensures { EventsAreEnabled }
{}

/// An event that is allowed has exactly one effect.
pub fn events_have_one_effect()
    ensures { EventsHaveOneEffect }
{}

/// Each event that adds a field to an entry finds it 0.
pub fn adds_find_unset()
    ensures { AddsFindUnset }
{}

/// What a node finds at each point of its call.
pub fn nodes_find()
    ensures { NodesFind }
{}

/// No event changes the number of nodes.
pub fn sizes_stay()
    ensures { SizesStay }
{}

/// A node's last request is the one with its highest number.
pub fn lasts_have_places()
    ensures { LastsHavePlaces }
{}

/// A release skips each other node at most once, and returns the line home after it has skipped all of them.
pub fn walks_are_short()
    ensures { WalksAreShort }
{}

/// A node that has closed the line, or was told that it is closed, leaves it closed.
pub fn ends_close()
    ensures { EndsClose }
{}

/// A run of events is a run of the queue.
pub fn runs_move()
    ensures { RunsMove }
{}

/// Open requests belong to different nodes. Therefore, on a line of N nodes, at most N - 1 other requests end before a
/// node's own.
pub fn few_are_open()
    ensures { FewAreOpen }
{}

/// The rank is a ranking function: each productive event lowers it, and only a prepend raises it.
///
/// The same holds for the rank of each open request, whatever requests come behind it.
pub fn events_go_down()
    ensures { EventsGoDown }
{}

/// While a request is open, some node has a productive event that is enabled. The place of the line says which node.
pub fn open_have_ways()
    ensures { OpenHaveWays }
{}

/// No other node can disable that event.
pub fn ways_stay()
    ensures { WaysStay }
{}

/// The rank is bounded by the number of nodes that are in a call, or withdrawn and not freed.
pub fn few_are_left()
    ensures { FewAreLeft }
{}

/// A path has at most as many productive events as its rank and its requests allow.
pub fn paths_are_short()
    ensures { PathsAreShort }
{}

/// A run of events has at most 5 productive events for each request made in it.
pub fn runs_are_short()
    ensures { RunsAreShort }
{}
