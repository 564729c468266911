// A file whose header is good, as the reader has it: gate, owner and output by number, from the caller's slice, with no second copy.
#![tactic(auto)]

ghost use Rattle.std.specs.Prelude.{◌≡◌, ◌<◌};
ghost use Rattle.file_header.specs.Opened.{Opened};

use check_refusal::Refusal;
use file_header::Counts;

// A gate's three numbers as they are stored.
#[derive(Clone, Copy, Debug, PartialEq, Eq)]
pub struct Gate {
    pub kind: u16,
    pub first: u16,
    pub second: u16,
}

// The caller's file with the counts of its header: what checks 1 to 3 leave. Nobody can make one of other counts.
#[derive(Clone, Copy)]
pub struct OpenFile<'a> {
    pub file: &'a [u8],
    pub counts: Counts,
    pub ghost opened: { Opened file.now counts },
}

impl<'a> OpenFile<'a> {
    ghost use Rattle.theory_calls.specs.File.{owner_at, output_at};
    ghost use Rattle.file_parts.specs.Mirror.{gate_stored, gate_by, owner_by, output_by};

    // Gate k of those that there are, the owner of input k, the wire of output k.
    pub fn gate_at(&self, k: usize) -> Gate
        requires { k < self.now.counts.gates }
        ensures { result ≡ gate_stored self.now.file.now self.now.counts k }
    {
        let at = 32 + self.counts.inputs + 6 * k;
        Gate {
            kind: file_numbers::u16_at(self.file, at),
            first: file_numbers::u16_at(self.file, at + 2),
            second: file_numbers::u16_at(self.file, at + 4),
        }
    }

    pub fn owner_at(&self, k: usize) -> u8
        requires { k < self.now.counts.inputs }
        ensures { result ≡ owner_at self.now.file.now k }
    {
        self.file[32 + k]
    }

    pub fn output_at(&self, k: usize) -> u16
        requires { k < self.now.counts.outputs }
        ensures { result ≡ output_at self.now.file.now self.now.counts.inputs self.now.counts.gates k }
    {
        file_numbers::u16_at(
            self.file,
            32 + self.counts.inputs + 6 * self.counts.gates + 2 * k,
        )
    }

    // The same, whatever number k is.
    pub fn gate(&self, k: usize) -> Result<Gate, Refusal>
        ensures { result ≡ gate_by self.now.file.now self.now.counts k }
    {
        if self.counts.gates <= k {
            return Err(Refusal::Gate(self.counts.gates));
        }
        Ok(self.gate_at(k))
    }

    pub fn owner(&self, k: usize) -> Result<u8, Refusal>
        ensures { result ≡ owner_by self.now.file.now self.now.counts k }
    {
        if self.counts.inputs <= k {
            return Err(Refusal::Owner(self.counts.inputs));
        }
        Ok(self.owner_at(k))
    }

    pub fn output(&self, k: usize) -> Result<u16, Refusal>
        ensures { result ≡ output_by self.now.file.now self.now.counts k }
    {
        if self.counts.outputs <= k {
            return Err(Refusal::Output(self.counts.outputs));
        }
        Ok(self.output_at(k))
    }
}
