// The questions to a reader that anybody made: a file, and counts that are only claimed.
use crate::answered;
use file_parts::Gate;
use file_reader::Reader;
use trials_stream::{input, print};

// Reads the file, into a lent room, and the counts beside it.
fn reader(room: &mut [u8]) -> Option<Reader<'_>> {
    let mut counts = [0u8; 12];
    let file = input::slice(room)?;
    input::slice(&mut counts)?;
    Some(Reader {
        file,
        inputs: file_numbers::u32_at(&counts, 0) as usize,
        gates: file_numbers::u32_at(&counts, 4) as usize,
        outputs: file_numbers::u32_at(&counts, 8) as usize,
    })
}

pub fn gate(k: usize) -> Option<()> {
    let mut room = io::large_buffer();
    let reader = reader(&mut room)?;
    print::word(b"gate_read");
    answered(file_claimed::gate_read(reader, k).map(numbers));
    Some(())
}

pub fn owner(k: usize) -> Option<()> {
    let mut room = io::large_buffer();
    let reader = reader(&mut room)?;
    print::word(b"owner_read");
    answered(file_claimed::owner_read(reader, k).map(|site| [site as usize]));
    Some(())
}

pub fn output(k: usize) -> Option<()> {
    let mut room = io::large_buffer();
    let reader = reader(&mut room)?;
    print::word(b"output_read");
    answered(file_claimed::output_read(reader, k).map(|wire| [wire as usize]));
    Some(())
}

// A gate's three numbers.
pub fn numbers(gate: Gate) -> [usize; 3] {
    [
        gate.kind as usize,
        gate.first as usize,
        gate.second as usize,
    ]
}
