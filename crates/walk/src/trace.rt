// The trace of a walk: its readings, and the visits that are made of them.
ghost use Rattle.std.specs.Prelude.{◌≡◌, true, ℕ, ◌+◌, ◌-◌, ◌≤◌, ◌<◌, length, get_or};
ghost use Rattle.std.specs.Prelude.{Some, None};
ghost use Rattle.walk.specs.StopParts.{lets_pass};

use crate::known::Memory;
use pack::protocol::FieldIndex;

// The readings of a walk, the buffer for its visits, and how many are made. Made once a walk, and lent.
#[derive(Drop)]
pub struct Trace<'a> {
    pub readings: &'a [u64],
    pub out: &'a mut [u32],
    pub made: usize,
    pub ghost read: { made ≤ length readings.now },
    pub ghost room: { length readings.now ≤ length out.now },
}

impl<'a> Trace<'a> {
    ghost use Rattle.walk.specs.Traces.{Makes, MakesAll};

    // How many readings are left.
    pub fn left(&self) -> usize
        ensures { result ≡ length self.now.readings.now - self.now.made }
    {
        self.readings.len() - self.made
    }

    // The next reading, if one is left.
    pub fn next(&self) -> Option<u64>
        ensures { record {
          none : result ≡ None → length self.now.readings.now ≤ self.now.made;
          some : (r : ℕ) → result ≡ Some r
              → record { read : self.now.made < length self.now.readings.now; is : r ≡ get_or self.now.readings.now self.now.made 0 };
        } }
    {
        if self.readings.len() <= self.made {
            return None;
        }
        Some(self.readings[self.made])
    }

    // "each visit takes one reading and writes the index"
    pub fn visit(&mut self, field: FieldIndex)
        requires { self.old.made < length self.old.readings.now }
        ensures { Makes self.old field.0 self.new }
    {
        self.out[self.made] = field.0;
        self.made += 1;
    }

    // The visits of n fields from k on.
    pub fn visit_all(&mut self, k: FieldIndex, n: usize)
        requires { record { read : self.old.made + n ≤ length self.old.readings.now; fields : k.0 + n < 4294967296 } }
        ensures { MakesAll self.old k.0 n self.new }
    {
        let mut field = k.0;
        for _ in 0..n {
            self.visit(FieldIndex(field));
            field += 1;
        }
    }

    // The same of as many of them as are known not to stop at their readings; and how many these are.
    pub fn visit_passing(&mut self, memory: &Memory, k: FieldIndex, n: usize) -> usize
        requires { record { read : self.old.made + n ≤ length self.old.readings.now; fields : k.0 + n < 4294967296 } }
        ensures { record {
          few : result ≤ n;
          makes : MakesAll self.old k.0 result self.new;
          passing : (j : ℕ) → j < result → lets_pass memory.now (k.0 + j) (get_or self.old.readings.now (self.old.made + j) 0) ≡ true;
        } }
    {
        for j in 0..n {
            let field = k.0 + j as u32;
            if !memory.lets_pass(field, self.readings[self.made]) {
                return j;
            }
            self.visit(FieldIndex(field));
        }
        n
    }
}
