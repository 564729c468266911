// The circuit file of a text that nothing is wrong with, written into the room: header, owners, gates, outputs.
#![tactic(auto)]

ghost use Rattle.std.specs.Prelude.{◌≡◌, ◌+◌, ◌*◌, ◌≤◌, length, replicate};
ghost use Rattle.theory_sharing.specs.Store.{fill};
ghost use Rattle.theory_calls.specs.File.{size};
ghost use Rattle.theory_files.specs.Written.{header_bytes, output_bytes};
ghost use Rattle.bristol_text.specs.Lines.{total};
ghost use Rattle.bristol_text.specs.Renamed.{spread};
ghost use Rattle.file_writer.specs.Mirror.{write};
ghost use Rattle.bristol_file.specs.Mirror.{outs_of, Few, Widths, widths_in, Seated, file_by};

use bristol_wires::{Numbering, Text};

// 01's eight fields.
fn put_header(room: &mut [u8], i: u32, g: u32, o: u32) -> usize
    requires { (32 ≤ length room.old) × (i ≤ 1024) × (g ≤ 3072) × (o ≤ 256) }
    ensures room_after { room.new ≡ fill room.old (header_bytes i g o) }
    ensures value { result ≡ 32 }
{
    let gates_at = 32 + i;
    let outs_at = gates_at + 6 * g;
    let a = file_writer::put_u32(room, 0, outs_at + 2 * o);
    let b = file_writer::put_u32(room, a, i);
    let c = file_writer::put_u32(room, b, g);
    let d = file_writer::put_u32(room, c, o);
    let e = file_writer::put_u32(room, d, 32);
    let f = file_writer::put_u32(room, e, gates_at);
    let h = file_writer::put_u32(room, f, outs_at);
    file_writer::put_u32(room, h, 0)
}

// One owner, once for each wire of his value.
#[tactic(auto, unfolding(file_writer::specs::Mirror::write))]
fn put_owner(room: &mut [u8], at: usize, owner: u8, n: usize) -> usize
    requires { at + n ≤ length room.old }
    ensures room_after { room.new ≡ write at (replicate n owner) room.old }
    ensures value { result ≡ at + n }
{
    let end = at + n;
    room[at..end].fill(owner);
    end
}

// The owners of all values, whose widths stand in the text from a place on.
fn put_owners(room: &mut [u8], at: usize, text: &[u8], seat: usize, owners: &[u8]) -> usize
    requires seat_inside { seat ≤ length text.now }
    requires widths { Widths text.now seat (length owners.now) }
    requires room_long { at + total (widths_in text.now seat) ≤ length room.old }
    ensures room_after { room.new ≡ write at (spread owners.now (widths_in text.now seat)) room.old }
    ensures value { result ≡ at + total (widths_in text.now seat) }
{
    let mut to = at;
    let mut seat = seat;
    for owner in owners {
        let width = bristol_words::next_word(text, seat);
        to = put_owner(room, to, *owner, width.number.unwrap() as usize);
        seat = width.end;
    }
    to
}

// "outputs the highest", by our numbers.
fn put_outputs(room: &mut [u8], at: usize, map: &[u16], t: Text) -> usize
    requires few { t.outs ≤ t.wires }
    requires room_long { at + 2 * t.outs ≤ length room.old }
    ensures room_after { room.new ≡ write at (output_bytes (outs_of map.now t)) room.old }
    ensures value { result ≡ at + 2 * t.outs }
{
    let mut to = at;
    for w in t.wires - t.outs..t.wires {
        to = file_writer::put_u16(room, to, bristol_wires::ours(map, t.ins, w));
    }
    to
}

// The file, from a map of any length. The inputs' line begins at seat; its first word is how many values there are.
pub fn put_file(
    room: &mut [u8],
    text: &[u8],
    seat: usize,
    owners: &[u8],
    t: Text,
    map: &[u16],
    gates: &[u8],
) -> usize
    requires seat_inside { seat ≤ length text.now }
    requires few { Few t }
    requires room_long { length room.old ≡ 20000 }
    requires gates_long { length gates.now ≡ 18432 }
    requires seated { Seated text.now seat owners.now t }
    ensures room_after { room.new
        ≡ fill room.old (file_by text.now seat owners.now t map.now gates.now) }
    ensures value { result ≡ size t.ins t.made t.outs }
{
    let a = put_header(room, t.ins, t.made, t.outs);
    let values = bristol_words::next_word(text, seat);
    let b = put_owners(room, a, text, values.end, owners);
    let n = 6 * t.made as usize;
    let c = file_writer::put_bytes(room, b, &gates[..n]);
    put_outputs(room, c, map, t)
}

// The same from a numbering.
pub fn put_numbered(
    room: &mut [u8],
    text: &[u8],
    seat: usize,
    owners: &[u8],
    numbering: &Numbering,
) -> usize
    requires seat_inside { seat ≤ length text.now }
    requires few { Few numbering.now.text }
    requires room_long { length room.old ≡ 20000 }
    requires seated { Seated text.now seat owners.now numbering.now.text }
    ensures room_after { room.new
        ≡ fill room.old (file_by text.now seat owners.now numbering.now.text numbering.now.map numbering.now.gates) }
    ensures value { result ≡ size numbering.now.text.ins numbering.now.text.made numbering.now.text.outs }
{
    put_file(
        room,
        text,
        seat,
        owners,
        numbering.text,
        &numbering.map,
        &numbering.gates,
    )
}
