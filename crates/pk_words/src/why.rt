// Why a board is stopped.

/// Memory was refused, or an element's next run would be one beyond the limit.
#[derive(Clone, Copy)]
pub enum Why {
    Memory,
    RunLimit { element: u32, run: u64 },
}
