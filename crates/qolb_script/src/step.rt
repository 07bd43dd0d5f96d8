//! The events of a step script that consist of one word and a node, such as `reset` and `load`.
ghost use Rattle.std.specs.Prelude.{◌≡◌, find};
ghost use Rattle.std.specs.Str.{bytes_eq};
ghost use Rattle.qolb_script.specs.Stepped.{word_of, event_of};

use link_core::Event;

/// The kinds of events that consist of one word and a node. The word tells the kind.
#[derive(Clone, Copy)]
pub enum Step {
    Reset,
    Prepend,
    Link,
    Load,
    Home,
    Done,
    Grant,
    Roll,
    Freed,
    Close,
}

/// All kinds of events that consist of one word and a node.
const STEPS: [Step; 10] = [
    Step::Reset,
    Step::Prepend,
    Step::Link,
    Step::Load,
    Step::Home,
    Step::Done,
    Step::Grant,
    Step::Roll,
    Step::Freed,
    Step::Close,
];

impl Step {
    /// Returns the kind that this first word names, or `None` if it names none.
    pub fn named(word: &[u8]) -> Option<Step>
        ensures { result ≡ find (λ step. bytes_eq word.now (word_of step)) STEPS }
    {
        STEPS.iter().find(|step| word == step.word()).copied()
    }

    /// Returns the first word of the events of this kind.
    fn word(self) -> &'static [u8]
        ensures { result.now ≡ word_of self }
    {
        match self {
            Step::Reset => b"reset",
            Step::Prepend => b"prepend",
            Step::Link => b"link",
            Step::Load => b"load",
            Step::Home => b"home",
            Step::Done => b"done",
            Step::Grant => b"grant",
            Step::Roll => b"roll",
            Step::Freed => b"freed",
            Step::Close => b"close",
        }
    }

    /// Returns the event of this kind for a node.
    pub fn event(self, node: u64) -> Event
        ensures { result ≡ event_of self node }
    {
        match self {
            Step::Reset => Event::Reset(node),
            Step::Prepend => Event::Prepend(node),
            Step::Link => Event::Link(node),
            Step::Load => Event::Load(node),
            Step::Home => Event::Home(node),
            Step::Done => Event::Done(node),
            Step::Grant => Event::Grant(node),
            Step::Roll => Event::Roll(node),
            Step::Freed => Event::Freed(node),
            Step::Close => Event::Close(node),
        }
    }
}
