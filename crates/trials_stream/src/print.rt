// What is printed, in pieces.
ghost use Rattle.std.specs.Prelude.{◌≡◌, ◌<◌, ◌≤◌};

// The number of standard output.
const STDOUT_FILENO: i32 = 1;

// A word as it stands.
pub fn word(text: &[u8]) {
    io::write_all(STDOUT_FILENO, text);
}

// Numbers, each behind a space, and the line's end.
pub fn numbers(all: &[usize]) {
    for n in all {
        word(b" ");
        io::print_decimal(STDOUT_FILENO, *n as u64);
    }
    word(b"\n");
}

// The line of a refusal, behind the call's name: two numbers, as the traffic table tells it.
pub fn refused(refusal: usize, place: usize) {
    word(b" refused");
    numbers(&[refusal, place]);
}

// The line of an abort, behind the call's name.
pub fn abort(output: usize, sites: usize) {
    word(b" abort");
    numbers(&[output, sites]);
}

// The line of a good answer, with its numbers.
pub fn good(all: &[usize]) {
    word(b" good");
    numbers(all);
}

// The line of a lent buffer: its name and its bytes.
pub fn buffer(name: &[u8], bytes: &[u8]) {
    word(name);
    if !bytes.is_empty() {
        word(b" ");
    }
    signs(bytes);
    word(b"\n");
}

// Signs wait here until the text is full, so that not each is printed alone. Not an ArrayVec: its push would answer a Result that nobody needs.
#[derive(Drop)]
struct Waiting {
    text: [u8; 4096],
    len: usize,
    ghost fits: { len ≤ 4096 },
}

impl Waiting {
    fn new() -> Waiting {
        Waiting {
            text: [0; 4096],
            len: 0,
        }
    }

    fn push(&mut self, sign: u8) {
        if self.len == 4096 {
            self.flush();
        }
        self.text[self.len] = sign;
        self.len += 1;
    }

    // Prints what waits.
    fn flush(&mut self)
        ensures { self.new.len ≡ 0 }
    {
        word(&self.text[..self.len]);
        self.len = 0;
    }
}

// The signs of bytes: 0 or 1 as that, any other as x and two signs.
fn signs(bytes: &[u8]) {
    let mut text = Waiting::new();
    for byte in bytes {
        if *byte <= 1 {
            text.push(b'0' + *byte);
        } else {
            text.push(b'x');
            text.push(sign(*byte / 16));
            text.push(sign(*byte % 16));
        }
    }
    text.flush();
}

// The sign of a number below 16.
fn sign(n: u8) -> u8
    requires { n < 16 }
{
    b"0123456789abcdef"[n as usize]
}

// The lines of a listing, each behind `| `. They wait as signs do.
pub fn lines(text: &[u8]) {
    let mut shown = Waiting::new();
    let mut begins = true;
    for byte in text {
        if begins {
            shown.push(b'|');
            shown.push(b' ');
        }
        shown.push(*byte);
        begins = *byte == b'\n';
    }
    shown.flush();
}
