// What a generator replies to the question where an event leads. An enum of its own: in an Option of an Option the two refusals would have no names.
#[derive(Clone, Copy, PartialEq, Eq, Debug)]
pub enum Next {
    // the event is outside the alphabet
    Foreign,
    // the event is known, and the state has no move by it
    Forbidden,
    // the event is permitted, and leads to this state
    To(u16),
}
