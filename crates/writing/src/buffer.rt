// A lent buffer that is written part behind part.
ghost use Rattle.rules.specs.Numbers.{be32};
ghost use Rattle.writing.specs.Writes.{HasRoom, Writes};

pub mod sheet;

// The buffer, and the place that is written next: of rests that are cut off one by one the check knows no whole.
#[derive(Drop)]
struct Buffer<'a> {
    bytes: &'a mut [u8],
    place: usize,
}

impl<'a> Buffer<'a> {
    // Writes these bytes.
    fn put(&mut self, bytes: &[u8])
        requires { HasRoom self.old bytes.now }
        ensures { Writes self.old bytes.now self.new }
    {
        let end = self.place + bytes.len();
        self.bytes[self.place..end].copy_from_slice(bytes);
        self.place = end;
    }

    // Writes a number in four bytes.
    fn put_number(&mut self, n: u32)
        requires { HasRoom self.old (be32 n) }
        ensures { Writes self.old (be32 n) self.new }
    {
        self.put(&n.to_be_bytes());
    }
}
