//! Laws of heads: where a part of a graph is entered at one point alone, that point is the head of a component.
#![tactic(auto)]

mod laws;

pub use laws::{
    dominators_are_heads, dominators_come_first, entries_are_heads, heads_are_led_to_twice,
    parts_are_entered, parts_have_heads, points_are_led_to, returns_lead_twice,
    twice_led_to_are_heads,
};
