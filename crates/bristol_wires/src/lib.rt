// The wires of a text, numbered anew: a map with a number for each wire that a gate line wrote, and our gates, six bytes each. What a line does to
// them, and the refusal of a line that reads a wire too early or writes it twice.
//
// The map has one more than our number, and 0 where a wire is not written. An input has no entry: it keeps its number. Beyond our limits, where a
// text is refused in the end, an entry only says that the wire is written, and no gate behind the 3,072nd is kept: so nothing here can grow too
// large, and no function asks for a bound.
#![tactic(auto)]

ghost use Rattle.std.specs.Prelude.{◌≡◌, ◌+◌, ◌*◌, ◌-◌, length, set, replicate};
ghost use Rattle.check_refusal.specs.Found.{found};
ghost use Rattle.bristol_wires.specs.Mirror.{entry_of, ours_of, next_entry, two_fault_of, fault_of, line_verdict, kind_of_two, gate_put};
ghost use Rattle.bristol_wires.specs.Mirror.{map_after, gates_after, one_more, after_widths, after_gate, text_after, nothing_read};

use bristol_text::Says;
use check_refusal::Refusal;

// What the lines before have said. stage: how many header lines there were; a number, as whoever asks over slices may have any. left: how many gate lines are still to come. made: our gates so far, 3,073 where there are more than 3,072.
#[derive(Clone, Copy)]
pub struct Text {
    pub stage: u32,
    pub wires: u32,
    pub values: u32,
    pub ins: u32,
    pub outs: u32,
    pub left: u32,
    pub made: u32,
}

// One gate of ours more.
#[tactic(auto, unfolding(crate::specs::Mirror::one_more))]
fn more(made: u32) -> u32
    ensures { result ≡ one_more made }
{
    if made <= 3072 { made + 1 } else { made }
}

// 1 XOR, 2 AND.
fn two_kind(a: Says) -> u16
    ensures { result ≡ kind_of_two a }
{
    match a {
        Says::Xor { .. } => 1,
        _ => 2,
    }
}

// Before the first line.
#[tactic(auto, unfolding(crate::specs::Mirror::nothing_read))]
pub fn nothing() -> Text
    ensures { result ≡ nothing_read }
{
    Text {
        stage: 0,
        wires: 0,
        values: 0,
        ins: 0,
        outs: 0,
        left: 0,
        made: 0,
    }
}

impl Text {
    // The entry of the wire that our next gate makes: 01's "gate g makes wire I+g".
    #[tactic(auto, unfolding(crate::specs::Mirror::next_entry))]
    fn next_entry(self) -> u16
        ensures { result ≡ next_entry self }
    {
        if self.ins <= 1024 {
            if self.made <= 3072 {
                return (self.ins + self.made) as u16 + 1;
            }
        }
        1
    }

    // Behind widths, and behind a gate line.
    #[tactic(auto, unfolding(crate::specs::Mirror::after_widths))]
    fn widened(self, values: u32, sum: u32) -> Text
        ensures { result ≡ after_widths self values sum }
    {
        if self.stage == 1 {
            return Text {
                stage: 2,
                values,
                ins: sum,
                ..self
            };
        }
        Text {
            stage: 3,
            outs: sum,
            ..self
        }
    }

    #[tactic(auto, unfolding(crate::specs::Mirror::after_gate))]
    fn gated(self, made: u32) -> Text
        ensures { result ≡ after_gate self made }
    {
        Text {
            left: self.left.saturating_sub(1),
            made,
            ..self
        }
    }
}

// What is known behind a line: behind one that is no good text, what was. EQW makes no gate.
#[tactic(auto, unfolding(crate::specs::Mirror::text_after, crate::specs::Mirror::after_counts))]
pub fn after(t: Text, a: Option<Says>) -> Text
    ensures { result ≡ text_after t a }
{
    match a {
        None | Some(Says::Blank | Says::Other) => t,
        Some(Says::Counts { gates, wires }) => Text {
            stage: 1,
            wires,
            left: gates,
            ..t
        },
        Some(Says::Widths { values, sum }) => t.widened(values, sum),
        Some(Says::Xor { .. } | Says::And { .. } | Says::Inv { .. }) => t.gated(more(t.made)),
        Some(Says::Eqw { .. }) => t.gated(t.made),
    }
}

// A wire's entry, in a map of any length.
#[tactic(auto, unfolding(crate::specs::Mirror::entry_of))]
pub fn entry(map: &[u16], ins: u32, w: u32) -> u16
    ensures { result ≡ entry_of map.now ins w }
{
    if w < ins {
        if w < 1024 {
            return w as u16 + 1;
        }
        return 1;
    }
    map.get(w as usize).copied().unwrap_or(0)
}

// Our number of a wire that is written.
#[tactic(auto, unfolding(crate::specs::Mirror::ours_of))]
pub fn ours(map: &[u16], ins: u32, w: u32) -> u16
    ensures { result ≡ ours_of map.now ins w }
{
    entry(map, ins, w).saturating_sub(1)
}

// 17 for a gate that reads two wires.
#[tactic(auto, unfolding(crate::specs::Mirror::two_fault_of))]
fn wires_check(map: &[u16], ins: u32, x: u32, y: u32, z: u32, line: usize) -> Result<(), Refusal>
    ensures { found result ≡ line_verdict (two_fault_of map.now ins x y z) line }
{
    let a = entry(map, ins, x);
    let b = entry(map, ins, y);
    let c = entry(map, ins, z);
    if (a != 0) & (b != 0) & (c == 0) {
        return Ok(());
    }
    Err(Refusal::TextWire(line))
}

// 15 before 16 before 17; a line beyond the gates that are left is 15 whatever stands on it.
#[tactic(auto, unfolding(crate::specs::Mirror::fault_of))]
pub fn check(map: &[u16], t: Text, a: Says, line: usize) -> Result<(), Refusal>
    ensures { found result ≡ line_verdict (fault_of t map.now (Some a)) line }
{
    match a {
        Says::Blank | Says::Counts { .. } | Says::Widths { .. } => Ok(()),
        _ if t.left == 0 => Err(Refusal::TextLine(line)),
        Says::Other => Err(Refusal::GateWord(line)),
        Says::Xor { x, y, z } | Says::And { x, y, z } => wires_check(map, t.ins, x, y, z, line),
        Says::Inv { x, z } | Says::Eqw { x, z } => wires_check(map, t.ins, x, x, z, line),
    }
}

// The number alone, 0 for none; a line that is no good text is 15.
#[tactic(auto, unfolding(crate::specs::Mirror::fault_of))]
pub fn fault(map: &[u16], t: Text, a: Option<Says>) -> usize
    ensures { result ≡ fault_of t map.now a }
{
    let Some(says) = a else {
        return 15;
    };
    match check(map, t, says, 0) {
        Ok(()) => 0,
        Err(refusal) => refusal.number(),
    }
}

// A wire's entry, written.
fn put_entry(map: &mut [u16], z: u32, e: u16)
    ensures { map.new ≡ set map.old z e }
{
    let k = z as usize;
    if k < map.len() {
        map[k] = e;
    }
}

// A gate of ours, behind those that are there.
#[tactic(auto, unfolding(crate::specs::Mirror::gate_put))]
fn put_gate(gates: &mut [u8], made: u32, kind: u16, a: u16, b: u16)
    requires { length gates.old ≡ 18432 }
    ensures { gates.new ≡ gate_put made kind a b gates.old }
{
    if made < 3072 {
        let e = file_writer::put_u16(gates, 6 * made as usize, kind);
        let f = file_writer::put_u16(gates, e, a);
        let _ = file_writer::put_u16(gates, f, b);
    }
}

// Such a gate, and the next entry for the wire that it writes.
fn enter_gate(map: &mut [u16], gates: &mut [u8], t: Text, kind: u16, a: u16, b: u16, z: u32)
    requires { length gates.old ≡ 18432 }
    ensures map { map.new ≡ set map.old z (next_entry t) }
    ensures gates { gates.new ≡ gate_put t.made kind a b gates.old }
{
    put_gate(gates, t.made, kind, a, b);
    put_entry(map, z, t.next_entry());
}

// What a line does to the map and to our gates: one that is no good text does nothing. EQW makes no gate: its wire has the entry of the one that it
// reads.
// XOR and AND share an arm: with one for each the `match` is a jump through a table, and reading a text of 378 gate lines took 28 % longer.
#[tactic(auto, unfolding(crate::specs::Mirror::map_after, crate::specs::Mirror::gates_after))]
pub fn enter(map: &mut [u16], gates: &mut [u8], t: Text, a: Option<Says>)
    requires { length gates.old ≡ 18432 }
    ensures map { map.new ≡ map_after t map.old a }
    ensures gates { gates.new ≡ gates_after t map.old a gates.old }
{
    let Some(says) = a else {
        return;
    };
    match says {
        Says::Blank | Says::Counts { .. } | Says::Widths { .. } | Says::Other => {}
        Says::Xor { x, y, z } | Says::And { x, y, z } => {
            let (p, q) = (ours(map, t.ins, x), ours(map, t.ins, y));
            enter_gate(map, gates, t, two_kind(says), p, q, z);
        }
        Says::Inv { x, z } => {
            let p = ours(map, t.ins, x);
            enter_gate(map, gates, t, 3, p, 0, z);
        }
        Says::Eqw { x, z } => {
            let e = entry(map, t.ins, x);
            put_entry(map, z, e);
        }
    }
}

// The map, our gates, and what the lines before have said. There is no heap: an entry is a u16 of a fixed table, with 0 for none, and no Option.
#[derive(Drop)]
pub struct Numbering {
    pub map: [u16; 8192],
    pub gates: [u8; 18432],
    pub text: Text,
}

impl Numbering {
    // Before the first line.
    pub fn new() -> Numbering
        ensures map { result.map ≡ replicate 8192 0 }
        ensures gates { length result.gates ≡ 18432 }
        ensures text { result.text ≡ nothing_read }
    {
        Numbering {
            map: [0; 8192],
            gates: [0; 18432],
            text: nothing(),
        }
    }

    // A wire's entry.
    pub fn entry(&self, w: u32) -> u16
        ensures { result ≡ entry_of self.now.map self.now.text.ins w }
    {
        entry(&self.map, self.text.ins, w)
    }

    // Our number of a wire that is written.
    pub fn ours(&self, w: u32) -> u16
        ensures { result ≡ ours_of self.now.map self.now.text.ins w }
    {
        ours(&self.map, self.text.ins, w)
    }

    // The refusal of a line: 15, 16 or 17.
    pub fn check(&self, a: Says, line: usize) -> Result<(), Refusal>
        ensures { found result ≡ line_verdict (fault_of self.now.text self.now.map (Some a)) line }
    {
        check(&self.map, self.text, a, line)
    }

    // What a good line does.
    pub fn enter(&mut self, a: Says)
        ensures map { self.new.map ≡ map_after self.old.text self.old.map (Some a) }
        ensures gates { self.new.gates ≡ gates_after self.old.text self.old.map (Some a) self.old.gates }
        ensures text { self.new.text ≡ text_after self.old.text (Some a) }
    {
        enter(&mut self.map, &mut self.gates, self.text, Some(a));
        self.text = after(self.text, Some(a));
    }
}
