//! Opens new lines for the tests, and returns each line with its ports.
ghost use Rattle.std.specs.Prelude.{All, IfSome};
ghost use Rattle.line_lanes.specs.Line.{zeros};
ghost use Rattle.line_accounts.specs.NewDesks.{IsNewPort};

use line_lanes::Line64;
use qolb_model::{Keep, LineConfig, LineSync, OpenLine};
use std::alloc::Global;

/// Opens a line of zeros for `nodes` nodes. Returns it with its ports, or `None` if it is refused.
pub fn open_zeros<K: Keep, L: OpenLine<K>>(
    alloc: Global,
    nodes: u64,
    lease: Option<u64>,
) -> Option<(L, Vec<L::Port>)>
    requires { K.good zeros }
    ensures { IfSome result (λ made. All (IsNewPort L.belongs L.view made.0) made.1.items) }
{
    let config = LineConfig {
        nodes,
        opening: Line64::zero(),
        lease,
    };
    match L::open_with(alloc, 1, config) {
        Ok(opened) => Some(opened),
        Err(_) => None,
    }
}

/// The opened line with the last of its ports.
pub fn with_last<K: Keep, L: LineSync<K> + Drop>(opened: (L, Vec<L::Port>)) -> Option<(L, L::Port)>
where
    L::Port: Drop,
    requires { All (IsNewPort L.belongs L.view opened.0) opened.1.items }
    ensures { IfSome result (λ made. IsNewPort L.belongs L.view made.0 made.1) }
{
    let (line, mut ports) = opened;
    let port = ports.pop()?;
    Some((line, port))
}

/// The opened line with the last two of its ports.
pub fn with_two<K: Keep, L: LineSync<K> + Drop>(
    opened: (L, Vec<L::Port>),
) -> Option<(L, L::Port, L::Port)>
where
    L::Port: Drop,
    requires { All (IsNewPort L.belongs L.view opened.0) opened.1.items }
    ensures first { IfSome result (λ made. IsNewPort L.belongs L.view made.0 made.1) }
    ensures second { IfSome result (λ made. IsNewPort L.belongs L.view made.0 made.2) }
{
    let (line, mut ports) = opened;
    let second = ports.pop()?;
    let first = ports.pop()?;
    Some((line, first, second))
}
