// Text put on a page, one piece behind another. What puts text is inner: its callers have room for what is put.
#![tactic(auto)]

ghost use Rattle.std.specs.Prelude.{◌+◌, ◌≤◌, ◌≡◌, ◌++◌, length};
ghost use Rattle.texts.specs.Text.{decimal, field, refusal_line};
ghost use Rattle.texts.specs.Room.{number_room, field_room, refusal_room};
ghost use Rattle.texts.specs.Page.{HasRoom, Puts};

// Room for a number of 64 bits, and for one with its space.
const NUMBER_ROOM: usize = 20;

pub const FIELD_ROOM: usize = 1 + NUMBER_ROOM;

// A lent buffer, and how many bytes of it have been written.
#[derive(Drop)]
pub struct Page<'a> {
    out: &'a mut [u8],
    at: usize,
}

impl<'a> Page<'a> {
    // Inner. The page with nothing on it.
    pub fn new(out: &'a mut [u8]) -> Page<'a>
        ensures same_buffer { result.out.ghost_name ≡ out.entry.ghost_name }
        ensures bytes { result.out.now ≡ out.old }
        ensures empty { result.at ≡ 0 }
    {
        Page { out, at: 0 }
    }

    // Inner. How many bytes have been written.
    pub fn written(&self) -> usize
        ensures { result ≡ self.now.at }
    {
        self.at
    }

    // Inner. Puts the text behind what has been written.
    pub fn put_text(&mut self, text: &[u8])
        requires { HasRoom self.old (length text.now) }
        ensures { Puts text.now self.old self.new }
    {
        let end = self.at + text.len();
        self.out[self.at..end].copy_from_slice(text);
        self.at = end;
    }

    // Inner. Puts the number in decimal.
    pub fn put_number(&mut self, n: u64)
        requires { HasRoom self.old number_room }
        ensures put { Puts (decimal n) self.old self.new }
        ensures upper_bound { self.new.at ≤ self.old.at + number_room }
    {
        let mut text = [0u8; NUMBER_ROOM];
        let count = io::decimal(n, &mut text);
        self.put_text(&text[..count]);
    }

    // Inner. Puts a space and the number.
    pub fn put_field(&mut self, n: u64)
        requires { HasRoom self.old field_room }
        ensures put { Puts (field n) self.old self.new }
        ensures upper_bound { self.new.at ≤ self.old.at + field_room }
    {
        self.put_text(b" ");
        self.put_number(n);
    }

    // Inner. Puts a word and the number that it is of.
    pub fn put_labelled(&mut self, word: &[u8], n: u64)
        requires { HasRoom self.old (length word.now + field_room) }
        ensures put { Puts (word.now ++ field n) self.old self.new }
        ensures upper_bound { self.new.at ≤ self.old.at + length word.now + field_room }
    {
        self.put_text(word);
        self.put_field(n);
    }

    // Inner. Puts the line of a refusal.
    pub fn put_refusal_line(&mut self, number: u32)
        requires { HasRoom self.old refusal_room }
        ensures put { Puts (refusal_line number) self.old self.new }
        ensures upper_bound { self.new.at ≤ self.old.at + refusal_room }
    {
        self.put_labelled(b"refused", u64::from(number));
        self.put_text(b"\n");
    }
}
