//! Accepts the line for a port whose turn has come. If the line is closed, the port does not keep the line, but
//! forwards it to the next node.
ghost use Rattle.std.specs.Prelude.{◌≡◌, ◌≢◌, ℕ, ◌+◌, ◌-◌, ◌≤◌};
ghost use Rattle.qolb_model.specs.Calls.{IsGrantedOrTold};
ghost use Rattle.line_generic.specs.Steps.{ghost_of, SeatAdvances};
ghost use Rattle.line_generic.specs.Ports.{write_in, IsPort, IsSeated};
ghost use Rattle.line_generic.specs.Answers.{HasGrant};
ghost use Rattle.line_generic.specs.Calls.{IsForwarder, HasForwarded};
ghost use Rattle.line_generic.specs.AtTurn.{Names};

use crate::discipline::{Discipline, Released};
use crate::line::Line;
use crate::table::{LineSeat, LocalCopy, SharedTable};
use crate::wake::WakePolicy;
use qolb_model::{Keep, PortState};

/// A request that has reached its turn.
pub(crate) struct Arrival {
    pub(crate) node: u64,
    pub(crate) token: u64,
    /// The number of atomic steps that the call has taken.
    pub(crate) steps: u64,
}

/// What became of a request at its turn.
#[derive(Drop)]
pub(crate) struct Accepted<A> {
    pub(crate) answer: A,
    pub(crate) state: PortState,
    /// The number of atomic steps of the whole call.
    pub(crate) steps: u64,
}

impl<K: Keep, Q: Discipline<K>, W: WakePolicy> Line<K, Q, W> {
    /// Accepts the line at the request's turn: copies it to `payload`, or forwards it if it is closed.
    ///
    /// Accepting an open line leaves the port `Holding`, takes no atomic step, and answers `granted`. A closed line is
    /// forwarded at once: the forwarding steps are counted, and the answer is `closed`.
    #[inline(always)]
    pub(crate) fn accept<A: Copy>(
        &self,
        seat: &mut LineSeat<Q::Local>,
        payload: &mut LocalCopy,
        note: &mut W::Note,
        arrival: Arrival,
        granted: A,
        closed: A,
    ) -> Accepted<A>
        requires seat { IsSeated K.good K.allows self.now.table.shared.key
            self.now.table.shared.table_id Q.phases.initial arrival.node seat.old }
        requires at_turn { HasGrant Q.phases self.now.table.shared.key.config.nodes arrival.token
            seat.old }
        requires no_overflow { arrival.steps ≤ 4 }
        ensures seat { IsSeated K.good K.allows self.now.table.shared.key
            self.now.table.shared.table_id Q.phases.initial arrival.node seat.new }
        ensures port { (label : ℕ) → (ghost_of Q.phases.initial seat.old).view.label ≡ label
            → IsPort Q.phases label arrival.node seat.new payload.new arrival.token result.state }
        ensures more { arrival.steps ≤ result.steps }
        ensures advances { SeatAdvances K.allows Q.phases.initial seat.old seat.new
            (result.steps - arrival.steps) }
        ensures count { (ghost_of Q.phases.initial seat.new).view.count
            ≡ (ghost_of Q.phases.initial seat.old).view.count }
        ensures at_turn { IsGrantedOrTold granted closed result.answer
            (ghost_of Q.phases.initial seat.new).view (write_in payload.new) }
        ensures steps { result.answer ≢ closed → result.steps ≡ arrival.steps }
        ensures bound { result.steps + 1 ≤ arrival.steps
            + Q.max_steps self.now.table.shared.key.config.nodes }
        ensures went_to { granted ≢ closed → result.answer ≡ closed
            → Names (Q.wake_word (ghost_of Q.phases.initial seat.new).view) (W.went_to note.new) }
        ensures keeps_note { result.answer ≢ closed → note.new ≡ note.old }
    {
        let table = &self.table.shared;
        let cell_mask = self.width.cell_mask;
        let Arrival { node, token, steps } = arrival;
        Q::take(table, seat, cell_mask, token, payload);
        if !payload.closed {
            return Accepted {
                answer: granted,
                state: PortState::Holding,
                steps,
            };
        }
        let Released {
            state: left,
            steps: more,
            unpark,
        } = forward_closed(table, seat, cell_mask, node, token);
        self.sleepers.wake(&self.table, note, unpark);
        Accepted {
            answer: closed,
            state: left,
            steps: steps + more,
        }
    }
}

/// Forwards a closed line to the successor. The function is cold and not inlined, because most turns are of an open
/// line.
#[cold]
#[inline(never)]
fn forward_closed<K: Keep, Q: Discipline<K>>(
    table: &SharedTable<K, Q>,
    seat: &mut LineSeat<Q::Local>,
    cell_mask: u64,
    node: u64,
    token: u64,
) -> Released
    requires { IsForwarder Q.phases Q.word_count Q.cell_mask_for table.now cell_mask node token
        seat.old }
    ensures { HasForwarded Q.DisciplineSpec Q.word_count table.now K.allows seat.old
        seat.new result }
{
    Q::release(table, seat, cell_mask, node, token, true)
}
