//! The core as a state machine. A program creates the machine, applies events to it, and reads its state.
ghost use Rattle.std.specs.Prelude.{◌≡◌, ◌↔◌, ◌≤◌, IfOk, IfErr, OnErr, IfSome, IsSome};
ghost use Rattle.qolb_model.specs.Queue.{Queue, empty_queue};
ghost use Rattle.qolb_model.specs.Opening.{AreNodes, MayOpen};
ghost use Rattle.link_core.specs.State.{IsNode, first, entry, point};
ghost use Rattle.link_core.specs.Steps.{Step, Fits, IsRefused};
ghost use Rattle.link_core.specs.Shown.{Shows};
ghost use Rattle.link_core.specs.Promise.{Keeps};
ghost use Rattle.link_core.specs.Progress.{rank};

use crate::entry::Entry;
use crate::event::Event;
use crate::place::Place;
use crate::point::Point;
use crate::state::State;
use crate::told::{NotEnabled, Told};
use line_lanes::Line64;
use qolb_model::LineConfig;
use std::marker::Model;

/// The core of a line with reversed links. The core's state represents a queue.
///
/// It takes 49,976 bytes for any number of nodes, nearly all for the lists of passed nodes.
#[derive(Drop)]
pub struct Core {
    state: State,
}

impl Model for Core {
    ghost use Rattle.link_core.specs.State.{State};

    ghost Value = { State };

    ghost use Rattle.link_core.specs.Promise.{IsSound};

    ghost view = { λ m. m.state };

    ghost invariant = { λ m. IsSound m.state };
}

impl Core {
    /// Opens a line of `nodes` nodes with the bytes `opening`, at home.
    ///
    /// Returns `None` if `nodes` is not 1 to `MAX_NODES`.
    pub fn start(nodes: u64, opening: Line64) -> Option<Core>
        ensures state { let config : LineConfig = record {
          nodes = nodes;
          opening = opening;
          lease = None;
        } in IfSome result (λ c. c ≡ first config) }
        ensures shows { let config : LineConfig = record {
          nodes = nodes;
          opening = opening;
          lease = None;
        } in IfSome result (λ c. Shows config c empty_queue) }
        ensures valid { IsSome result ↔ AreNodes nodes }
    {
        Core::with_config(LineConfig {
            nodes,
            opening,
            lease: None,
        })
    }

    /// Opens a line as `start` does. The line closes at the `lease`-th served turn.
    ///
    /// Returns `None` if `start` would, and if `lease` is 0.
    pub fn start_leased(nodes: u64, opening: Line64, lease: u64) -> Option<Core>
        ensures state { let config : LineConfig = record {
          nodes = nodes;
          opening = opening;
          lease = Some lease;
        } in IfSome result (λ c. c ≡ first config) }
        ensures shows { let config : LineConfig = record {
          nodes = nodes;
          opening = opening;
          lease = Some lease;
        } in IfSome result (λ c. Shows config c empty_queue) }
        ensures valid { IsSome result ↔ (AreNodes nodes × (1 ≤ lease)) }
    {
        Core::with_config(LineConfig {
            nodes,
            opening,
            lease: Some(lease),
        })
    }

    /// Opens a line with the nodes, the opening bytes and the lease of `config`.
    pub fn with_config(config: LineConfig) -> Option<Core>
        ensures state { IfSome result (λ c. c ≡ first config) }
        ensures shows { IfSome result (λ c. Shows config c empty_queue) }
        ensures valid { IsSome result ↔ MayOpen config }
    {
        match config.check() {
            Ok(()) => {
                let state = State::opened(config);
                Some(Core { state })
            }
            Err(_) => None,
        }
    }

    /// Makes one event. If it is refused, nothing changes.
    pub fn step(&mut self, event: Event) -> Result<Told, NotEnabled>
        ensures step { IfOk result (λ t. Step self.old event t self.new) }
        ensures refused { IfErr result (λ e. IsRefused self.old event e) }
        ensures unchanged { OnErr result (self.new ≡ self.old) }
        ensures shows { (config : LineConfig) (q : Queue) → Shows config self.old q
            → IfOk result (λ t. (step : Step self.old event t self.new)
            × Keeps config self.old event t self.new step q) }
    {
        self.state.apply(event)
    }

    /// Returns the number of nodes.
    pub fn nodes(&self) -> u64
        ensures { result ≡ self.now.nodes }
    {
        self.state.nodes
    }

    /// Returns the node's point in its call.
    pub fn point(&self, node: u64) -> Point
        requires { IsNode self.now node }
        ensures { result ≡ point self.now node }
    {
        self.state.point(node)
    }

    /// Returns the rank, which bounds the number of productive events that can follow each other without a new request.
    ///
    /// The productive events are links, loads that bring the line, releases and freeings. None of them waits for
    /// another request, and while a request is open some node can make one.
    pub fn rank(&self) -> u64
        ensures { result ≡ rank self.now }
    {
        self.state.rank()
    }

    /// Returns the place of the line.
    pub fn place(&self) -> Place
        ensures { result ≡ self.now.place }
    {
        self.state.place
    }

    /// Returns the home word: 0, or the node that prepended last.
    pub fn home(&self) -> u64
        ensures { result ≡ self.now.home }
    {
        self.state.home
    }

    /// Returns the entry word of the node.
    pub fn entry(&self, node: u64) -> Entry
        requires { IsNode self.now node }
        ensures { result ≡ entry self.now node }
    {
        self.state.entry(node)
    }
}
