// The calls that take one slice. Each has a function, which prints the call's name and its answer.
use crate::{answered, readers};
use trials_stream::{input, print};

// Reads the slice and makes the call.
pub fn on_slice<F: FnOnce(&[u8])>(call: F) -> Option<()>
    requires { F.IsAlwaysCallable call }
{
    let mut room = io::large_buffer();
    let slice = input::slice(&mut room)?;
    call(slice);
    Some(())
}

pub fn open(file: &[u8]) {
    print::word(b"open");
    answered(file_header::open_file(file).map(|c| [c.inputs, c.gates, c.outputs]));
}

pub fn gate(file: &[u8], k: usize) {
    print::word(b"gate");
    answered(file_reader::gate_of(file, k).map(readers::numbers));
}

pub fn owner(file: &[u8], k: usize) {
    print::word(b"owner");
    answered(file_reader::owner_of(file, k).map(|site| [site as usize]));
}

pub fn output(file: &[u8], k: usize) {
    print::word(b"output");
    answered(file_reader::output_of(file, k).map(|wire| [wire as usize]));
}

pub fn check(file: &[u8]) {
    print::word(b"check");
    answered(check_circuit::check_file(file).map(|c| [c.inputs, c.gates, c.outputs]));
}

// The traffic table, which is printed whatever the answer is.
pub fn table(file: &[u8]) {
    let mut number: usize = 0;
    let mut place: usize = 0;
    let rows = traffic::traffic_of(file, &mut number, &mut place);
    print::word(b"traffic");
    if number == 0 {
        print::good(&[]);
    } else {
        print::refused(number, place);
    }
    for row in &rows {
        print::word(b"row");
        print::numbers(&row.map(|n| n as usize));
    }
}
