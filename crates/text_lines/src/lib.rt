// Building blocks of the listing's lines. Each method of `Out` writes text at the offset of a lent slice, as far as it fits, and moves the offset
// behind the text, even if that is past the end of the slice: so the last offset is the length of the whole text. specs/ defines the text;
// `field_text` and `text` write its lines.
#![tactic(auto)]

ghost use Rattle.text_lines.specs.Text.{newline, decimal, hex_text, byte_text, name_text, gap_text, value_text};
ghost use Rattle.text_lines.specs.Steps.{Written};

// A text that is written into a lent slice, and the offset of its next part: at most the largest number, though no text is that long.
#[derive(Drop)]
pub struct Out<'a> {
    pub bytes: &'a mut [u8],
    pub at: usize,
}

impl<'a> Out<'a> {
    // Writes `text`, which may be any bytes, a byte a turn: most texts are of one or two bytes, and a call of memmove, which
    // `copy_from_slice` makes, takes longer than they do.
    pub fn put(&mut self, text: &[u8])
        ensures { Written text.now self.old self.new }
    {
        let from = self.at.min(self.bytes.len());
        let n = text.len().min(self.bytes.len() - from);
        let to = &mut self.bytes[from..from + n];
        for (i, byte) in text[..n].iter().enumerate() {
            to[i] = *byte;
        }
        self.at = self.at.saturating_add(text.len());
    }

    // Writes a number in decimal.
    pub fn put_decimal(&mut self, n: u64)
        ensures { Written (decimal n) self.old self.new }
    {
        let mut digits = [0u8; 20];
        let k = io::decimal(n, &mut digits);
        self.put(&digits[..k]);
    }

    // Writes a word: 0x and 16 digits.
    pub fn put_hex(&mut self, w: u64)
        ensures { Written (hex_text w) self.old self.new }
    {
        let mut digits = [0u8; 16];
        let k = io::hex(w, 16, &mut digits);
        self.put(b"0x");
        self.put(&digits[..k]);
    }

    // Writes a byte: two hex digits.
    pub fn put_byte(&mut self, b: u8)
        ensures { Written (byte_text b) self.old self.new }
    {
        let mut digits = [0u8; 16];
        let k = io::hex(b as u64, 2, &mut digits);
        self.put(&digits[..k]);
    }

    // Writes the name of a console: its 8 bytes in order, as hex digits.
    pub fn put_name(&mut self, w: u64)
        ensures { Written (name_text w) self.old self.new }
    {
        for byte in w.to_le_bytes() {
            self.put_byte(byte);
        }
    }

    // Writes the space before word `j` of an entry; nothing before the first word.
    pub fn put_gap(&mut self, j: usize)
        ensures { Written (gap_text j) self.old self.new }
    {
        match j {
            0 => self.put(b""),
            _ => self.put(b" "),
        }
    }

    // Writes the bytes of a value, each after a space.
    pub fn put_value(&mut self, value: &[u8])
        ensures { Written (value_text value.now) self.old self.new }
    {
        for byte in value {
            self.put(b" ");
            self.put_byte(*byte);
        }
    }

    // Writes the end of a line.
    pub fn put_end(&mut self)
        ensures { Written newline self.old self.new }
    {
        self.put(b"\n");
    }
}
