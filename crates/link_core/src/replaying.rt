//! Replays a list of events, starting from a line that was just opened.
ghost use Rattle.std.specs.Prelude.{◌≡◌, ◌⊎◌, IfOk, IfErr};
ghost use Rattle.qolb_model.specs.Queue.{Queue};
ghost use Rattle.qolb_model.specs.Histories.{IsLegal};
ghost use Rattle.qolb_model.specs.Opening.{AreNodes};
ghost use Rattle.link_core.specs.Shown.{Shows};
ghost use Rattle.link_core.specs.Promise.{Run, Stops};

use crate::event::Event;
use crate::machine::Core;
use crate::told::NotEnabled;
use line_lanes::Line64;
use qolb_model::LineConfig;

/// Makes the events in turn, and returns the core or the first refused event.
///
/// For a refused event it returns the event's index and the cause. It returns `(0, Node)` if `nodes` is out of range,
/// whatever the events are.
pub fn replay(nodes: u64, opening: Line64, events: &[Event]) -> Result<Core, (usize, NotEnabled)>
    ensures ok { let config : LineConfig = record {
      nodes = nodes;
      opening = opening;
      lease = None;
    } in IfOk result (λ c.
        AreNodes nodes × (q : Queue) × Run config events.now c q × IsLegal None q.order q.ends
        × Shows config c q) }
    ensures err { let config : LineConfig = record {
      nodes = nodes;
      opening = opening;
      lease = None;
    } in IfErr result (λ e.
        ((AreNodes nodes → ⊥) × (e.0 ≡ 0) × (e.1 ≡ NotEnabled.Node))
        ⊎ (AreNodes nodes × Stops config events.now e.0 e.1)) }
{
    let Some(mut core) = Core::start(nodes, opening) else {
        return Err((0, NotEnabled::Node));
    };
    for (i, event) in events.iter().enumerate() {
        if let Err(refusal) = core.step(*event) {
            return Err((i, refusal));
        }
    }
    Ok(core)
}
