// A page, on which a paper is put from its front on.
ghost use Rattle.std.specs.Prelude.{◌≡◌, ◌≤◌, ◌++◌, length, decimal};
ghost use Rattle.paper_text.specs.Page.{Put};

// A text that reaches past the buffer's end is counted and lost, so that one description of a paper
// tells its length and writes it.
// No `fmt::Write` for lines that `impl Display`: after an `Err` of theirs, which no clause rules out,
// the length cannot be proved.
#[derive(Drop)]
pub(crate) struct Page<'a> {
    buffer: &'a mut [u8],
    len: usize,
}

impl<'a> Page<'a> {
    pub(crate) fn new(buffer: &'a mut [u8]) -> Page<'a>
        ensures same_buffer { result.buffer.ghost_name ≡ buffer.entry.ghost_name }
        ensures held { result.buffer.now ≡ buffer.old }
        ensures empty { result.len ≡ 0 }
    {
        Page { buffer, len: 0 }
    }

    pub(crate) fn len(&self) -> usize
        ensures { result ≡ self.now.len }
    {
        self.len
    }

    pub(crate) fn put(&mut self, text: &[u8])
        ensures { Put text.now self.old self.new }
    {
        let end = self.len.saturating_add(text.len());
        if end <= self.buffer.len() {
            self.buffer[self.len..end].copy_from_slice(text);
        }
        self.len = end;
    }

    // In decimal.
    pub(crate) fn put_number(&mut self, number: u32)
        ensures { Put (decimal number) self.old self.new }
    {
        self.put(itoa::Buffer::new().format(number).as_bytes());
    }

    // A number with a text before it and one after it.
    pub(crate) fn put_framed(&mut self, before: &[u8], number: u32, after: &[u8])
        ensures { Put (before.now ++ (decimal number ++ after.now)) self.old self.new }
    {
        self.put(before);
        self.put_number(number);
        self.put(after);
    }
}
