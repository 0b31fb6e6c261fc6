// The places of an order.

/// What an element is at its place. An exit says how many places back the head of its component stands.
#[derive(Clone, Copy)]
pub enum Role {
    Vertex,
    Head,
    Exit { back: usize },
}

/// A place of an order: an element, and whether it is a vertex, the head of a component or the exit of one.
#[derive(Clone, Copy)]
pub struct Place {
    pub element: u32,
    pub role: Role,
}
