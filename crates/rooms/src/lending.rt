// What a reading is lent besides the pickle, each slice under its name (RULES A3.2; docs/ROOMS.md): the machine's rooms, the builder's, and the
// outputs, table and text.
ghost use Rattle.std.specs.Prelude.{◌≡◌};
ghost use Rattle.rooms.specs.Stated.{room_lengths, stated, Long, short, blank};
ghost use Rattle.rooms.specs.Lent.{slices_of, SameSlices};

use crate::zero;

#[derive(Drop)]
pub struct Lent<'a> {
    pub nodes: &'a mut [u64],
    pub owners: &'a mut [u16],
    pub children: &'a mut [u16],
    pub stack: &'a mut [u16],
    pub marks: &'a mut [u16],
    pub keys: &'a mut [u32],
    pub held: &'a mut [u16],
    pub unescaped: &'a mut [u8],
    pub starts: &'a mut [u16],
    pub sorted: &'a mut [u16],
    pub measures: &'a mut [u64],
    pub table: &'a mut [u64],
    pub text: &'a mut [u8],
}

impl<'a> Lent<'a> {
    // Whether one of the slices is shorter than stated.
    pub fn is_short(&self) -> bool
        ensures { result ≡ short stated (slices_of self.now) }
    {
        (self.nodes.len() < 8192)
            | (self.owners.len() < 8192)
            | (self.children.len() < 8192)
            | (self.stack.len() < 2048)
            | (self.marks.len() < 256)
            | (self.keys.len() < 2048)
            | (self.held.len() < 1024)
            | (self.unescaped.len() < 65536)
            | (self.starts.len() < 4098)
            | (self.sorted.len() < 16384)
            | (self.measures.len() < 4096)
            | (self.table.len() < 8192)
            | (self.text.len() < 65536)
    }

    // The rooms zero up to their stated lengths.
    pub fn clear(&mut self)
        requires { Long room_lengths (slices_of self.old) }
        ensures after { slices_of self.new ≡ blank room_lengths (slices_of self.old) }
        ensures same_slices { SameSlices self.old self.new }
    {
        zero(self.nodes, 8192);
        zero(self.owners, 8192);
        zero(self.children, 8192);
        zero(self.stack, 2048);
        zero(self.marks, 256);
        zero(self.keys, 2048);
        zero(self.held, 1024);
        zero(self.unescaped, 65536);
        zero(self.starts, 4098);
        zero(self.sorted, 16384);
        zero(self.measures, 4096);
    }
}
