// Definitions of a Bristol Fashion text, its meaning and its circuit file, the call on it, and laws; the types in which code says what a line says
// and which comes next. Nothing here runs.
#![tactic(auto)]

// Which line comes next: the counts, the widths of the inputs, those of the outputs, or a gate.
#[derive(Clone, Copy)]
pub enum Stage {
    Counts,
    Inputs,
    Outputs,
    Gates,
}

// What a good line says: nothing, the counts, the widths, another gate word, or a gate: what it reads, what it writes.
#[derive(Clone, Copy)]
pub enum Says {
    Blank,
    Counts { gates: u32, wires: u32 },
    Widths { values: u32, sum: u32 },
    Other,
    Xor { x: u32, y: u32, z: u32 },
    And { x: u32, y: u32, z: u32 },
    Inv { x: u32, z: u32 },
    Eqw { x: u32, z: u32 },
}
