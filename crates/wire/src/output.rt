// Appending lines to a lent output: what lies elsewhere stays as it was.
ghost use Rattle.std.specs.Prelude.{◌≡◌, ◌+◌, ◌*◌, ◌/◌, ◌%◌, ◌<◌, ◌≤◌, [], ◌∷◌, length};
ghost use Rattle.wire.specs.Appending.{lines, lines_in, has_room, Appends, Writes};
ghost use Rattle.wire.specs.Bytes.{digit_of, hex};
ghost use Rattle.wire.specs.Output.{ReadsBack};

// An output that the caller lends, and the place that the next line goes to.
#[derive(Drop)]
pub struct Output<'a> {
    bytes: &'a mut [u8],
    at: usize,
}

fn hex_digit(value: u8) -> u8
    requires { value < 16 }
    ensures { result ≡ digit_of value }
{
    if value < 10 {
        b'0' + value
    } else {
        b'A' - 10 + value
    }
}

impl<'a> Output<'a> {
    // The next line goes to the front of the bytes.
    pub fn new(bytes: &'a mut [u8]) -> Output<'a>
        ensures same_bytes { result.bytes.ghost_name ≡ bytes.entry.ghost_name }
        ensures start { lines_in result ≡ lines bytes.old 0 }
    {
        Output { bytes, at: 0 }
    }

    // The next line goes to this place.
    pub fn from_place(bytes: &'a mut [u8], at: usize) -> Output<'a>
        ensures same_bytes { result.bytes.ghost_name ≡ bytes.entry.ghost_name }
        ensures start { lines_in result ≡ lines bytes.old at }
    {
        Output { bytes, at }
    }

    // The place that the next line goes to, just behind the last.
    pub fn place(&self) -> usize
        ensures { result ≡ (lines_in self.now).place }
    {
        self.at
    }

    // How many bytes are lent.
    pub fn size(&self) -> usize
        ensures { result ≡ length (lines_in self.now).output }
    {
        self.bytes.len()
    }

    fn has_room(&self, frame: &[u8]) -> bool
        ensures { result ≡ has_room (lines_in self.now) frame.now }
    {
        frame.len() < self.size().saturating_sub(self.place()).div_ceil(2)
    }

    fn put(&mut self, byte: u8)
        requires { (lines_in self.old).place < length (lines_in self.old).output }
        ensures { Writes self.old self.new (byte ∷ []) }
    {
        let Output { bytes, at } = self;
        bytes[*at] = byte;
        *at += 1;
    }

    // Two digits.
    fn put_byte(&mut self, byte: u8)
        requires { (lines_in self.old).place + 1 < length (lines_in self.old).output }
        ensures { Writes self.old self.new (digit_of (byte / 16) ∷ digit_of (byte % 16) ∷ []) }
    {
        self.put(hex_digit(byte / 16));
        self.put(hex_digit(byte % 16));
    }

    fn put_digits(&mut self, frame: &[u8])
        requires { (lines_in self.old).place + 2 * length frame.now ≤ length (lines_in self.old).output }
        ensures { Writes self.old self.new (hex frame.now) }
    {
        for byte in frame {
            self.put_byte(*byte);
        }
    }

    // Apart from `put_line`, so that a place before the feed is refused at the code.
    fn put_feed(&mut self)
        requires { (lines_in self.old).place < length (lines_in self.old).output }
        ensures { Writes self.old self.new (10 ∷ []) }
    {
        self.put(b'\n');
    }

    // Appends a frame as a line, and answers whether it has room; where the whole line has none, nothing is written.
    // The line reads back.
    pub fn put_line(&mut self, frame: &[u8]) -> bool
        ensures room { result ≡ has_room (lines_in self.old) frame.now }
        ensures appends { Appends self.old self.new (frame.now ∷ []) }
        ensures reads { ReadsBack frame.now }
    {
        let room = self.has_room(frame);
        if room {
            self.put_digits(frame);
            self.put_feed();
        }
        room
    }
}
