// The components of a plan.

/// A component by its head and its exit. Its members, the head and the exits of nested components among them, are the elements
/// from the place `first` of the plan's listing on, up to the place `end`, where its exit stands.
#[derive(Clone, Copy)]
pub struct Component {
    pub head: u32,
    pub exit: u32,
    pub first: u32,
    pub end: u32,
}
