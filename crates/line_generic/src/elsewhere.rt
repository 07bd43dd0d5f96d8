//! The wake policy for waiters that the caller parks and unparks, instead of this library. A release only records the
//! words on which the next waiters wait. The caller reads these words after the release, and unparks the waiters.
//!
//! The nodes of the C library (`qolb_nodes`) use this policy.
ghost use Rattle.std.specs.Prelude.{◌≡◌, Some};
ghost use Rattle.qolb_model.specs.declared.answer.PortState.TheVariants as port_state;
ghost use Rattle.qolb_model.specs.declared.view.View.{View};
ghost use Rattle.line_generic.specs.PortCalls.{IsPortOf};
ghost use Rattle.line_generic.specs.AtTurn.{SeesTurn};

use crate::discipline::Discipline;
use crate::line::Line;
use crate::port::Port;
use crate::sleepers::UnparkHandle;
use crate::table::LineTable;
use crate::wake::WakePolicy;
use qolb_model::Keep;

/// A number that is not a word of any line, so no node waits there.
pub const NO_WORD: usize = usize::MAX;

/// The words of the next holder and of the waiter behind it, as a release has recorded them.
///
/// If there is no such waiter, `ahead` is a number on which no node waits.
#[derive(Clone, Copy)]
pub struct WentTo {
    word: usize,
    ahead: usize,
}

/// A wake policy for waiters that the caller parks and unparks. A release records their words in its port.
///
/// A program uses this policy if the lock may not make system calls. After each call that released the line, the caller
/// reads `went_to` and `went_ahead`, and unparks the waiters of these words.
#[derive(Drop)]
pub struct SleepersElsewhere;

impl WakePolicy for SleepersElsewhere {
    type Note = WentTo;

    ghost went_to = { λ note. Some note.word };

    fn none() -> SleepersElsewhere {
        SleepersElsewhere
    }

    #[inline(always)]
    fn blank() -> WentTo {
        WentTo {
            word: NO_WORD,
            ahead: NO_WORD,
        }
    }

    #[inline(always)]
    fn wake<K: Keep, Q: Discipline<K>>(
        &self,
        _: &LineTable<K, Q>,
        note: &mut WentTo,
        unpark: UnparkHandle,
    ) {
        let (word, ahead) = unpark.words();
        *note = WentTo { word, ahead };
    }
}

impl<K: Keep, Q: Discipline<K>, W: WakePolicy> Line<K, Q, W> {
    /// Returns the word on which the port's node waits. Takes no atomic step.
    ///
    /// If the port holds the line, this is the word on which it was granted.
    pub fn wait_word(&self, port: &Port<Q, W>) -> usize
        requires { IsPortOf K.Keep self.now.table.shared port.now }
        ensures word { result ≡ Q.wait_word port.now.view.config.nodes port.now.view.node
            port.now.token }
        ensures turn { port.now.view.state ≡ port_state.Holding → (u : View)
            → SeesTurn u port.now.view → result ≡ Q.wake_word u }
    {
        Q::wait_word(
            &self.table.shared,
            self.width.cell_mask,
            port.node,
            port.token,
        )
    }
}

impl<K: Keep, Q: Discipline<K>> Line<K, Q, SleepersElsewhere> {
    /// Returns the word of the next holder after the port's last release, or `NO_WORD` before the first release.
    pub fn went_to(&self, port: &Port<Q, SleepersElsewhere>) -> usize
        ensures { port.now.went_to ≡ Some result }
    {
        port.note.word
    }

    /// Returns the word of the waiter behind the next holder, which should be unparked one turn early. If there is no
    /// such waiter, returns a number on which no node waits.
    pub fn went_ahead(&self, port: &Port<Q, SleepersElsewhere>) -> usize {
        port.note.ahead
    }
}
