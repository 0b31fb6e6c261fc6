// What may happen to an element, and how an element stands.

/// An event, of an element by its number. A send goes from an element to a successor.
#[derive(Clone, Copy)]
pub enum Event {
    Offer(u32),
    Claim(u32),
    Finish(u32),
    Send(u32, u32),
    Stable(u32),
    Again(u32),
}

/// How an element stands: it waits for so many predecessors, may be taken, is taken, or was run.
#[derive(Clone, Copy)]
pub enum Status {
    Waiting(u32),
    Open,
    Held,
    Done,
}
